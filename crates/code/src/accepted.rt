// An accepted code: one that passed the code test, with its field. What takes one need not test it again, nor ask that it was tested.
ghost use Rattle.std.specs.Prelude.{◌≡◌, IfOk, IfErr};
ghost use Rattle.basics.specs.Outcome.{Done, Refused};
ghost use Rattle.codewords.specs.Code.{code_answer};
ghost use Rattle.code.specs.Parts.{code_with};

use crate::test::test_code_with;
use basics::Refusal;
use elliptic::Curve;
use field::Field;

#[derive(Clone, Copy)]
pub struct Code<'a> {
    pub field: &'a Field,
    pub curve: Curve,
    pub k: usize,
    pub xs: &'a [u8],
    pub ys: &'a [u8],
    pub ghost accepted: { code_answer (code_with field.now.number curve k xs.now ys.now) ≡ Done },
}

impl<'a> Code<'a> {
    ghost use Rattle.code.specs.Shown.{shown};

    // The code test from number 2 on: the field has passed number 1.
    pub fn new(
        field: &'a Field,
        curve: Curve,
        k: usize,
        xs: &'a [u8],
        ys: &'a [u8],
    ) -> Result<Code<'a>, Refusal>
        ensures accepted { IfOk result (λ c. shown c ≡ code_with field.now.number curve k xs.now ys.now) }
        ensures refused { IfErr result (λ e. code_answer (code_with field.now.number curve k xs.now ys.now) ≡ Refused e) }
    {
        test_code_with(field, curve, k, xs, ys)?;
        Ok(Code {
            field,
            curve,
            k,
            xs,
            ys,
        })
    }
}
