// The working space: how much of it is used, and that it is left clear.
ghost use Rattle.std.specs.Prelude.{◌≡◌, ◌≤◌, length};
ghost use Rattle.solving.specs.Tests.{room, cleared};

use engine::slices::clear;

pub const ROOM: usize = 8192;

// The room that is used becomes zero.
pub fn clear_room(work: &mut [u8])
    requires { room ≤ length work.old }
    ensures { work.new ≡ cleared work.old }
{
    clear(&mut work[..ROOM]);
}
