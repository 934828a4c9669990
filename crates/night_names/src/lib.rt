// The names of what a night writes, which no FILE may have.
#![tactic(auto)]

ghost use Rattle.std.specs.Prelude.{◌≡◌};
ghost use Rattle.night_names.specs.Ours.{is_our_name, is_ours};

use night_ends::{ends_in, ends_try};
use night_path::{Name, name_of};

// Whether a NAME is that of a table, or of the rows of a try.
fn is_our_name(name: &[u8]) -> bool
    ensures { result ≡ is_our_name name.now }
{
    name == b"tries".as_slice() || name == b"curved".as_slice() || ends_try(name)
}

// Whether a FILE has the name of something that a night writes.
pub fn is_ours(path: &[u8]) -> bool
    ensures { result ≡ is_ours path.now }
{
    if ends_in(path, b".part") {
        return true;
    }
    let Name { from, upto } = name_of(path);
    is_our_name(&path[from..upto])
}
