// The table of keys of a width, for a program that hashes many: by byte for keys of 13 bytes, by half-byte for keys of 37.
ghost use Rattle.std.specs.Prelude.{◌≡◌, length};
ghost use Rattle.theory.specs.Settings.{KeyWidth};
ghost use Rattle.hash.specs.Made.{made_length, MadeFor};

use crate::{half_table, table};
use settings::Settings;

pub fn make_table(width: usize) -> &'static [u64]
    requires { KeyWidth width }
    ensures length { length result.now ≡ made_length width }
    ensures made { MadeFor width result.now }
{
    if width == Settings::IPV4_WIDTH {
        table()
    } else {
        half_table()
    }
}
