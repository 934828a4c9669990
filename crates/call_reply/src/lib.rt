// What every call answers.
#![tactic(auto)]

ghost use Rattle.std.specs.Prelude.{◌≡◌};
ghost use Rattle.refusal.specs.Codes.{refusal_code};
ghost use Rattle.call_reply.specs.Replies.{plain, too_few, done_reply};

use refusal::{Refusal, refusal_code};

// 0 or the refusal; the rows written, or with refusal 7 the rows needed; the warning; with warning 6 the wanted count;
// the axes that held their end for want of a start, bit k for axis k.
#[repr(C)]
#[derive(Clone, Copy)]
pub struct Reply {
    pub code: u64,
    pub count: u64,
    pub warning: u64,
    pub wanted: u64,
    pub held: u64,
}

impl From<Refusal> for Reply {
    ghost from_gives = { λ refusal reply. reply ≡ plain (refusal_code refusal) };

    fn from(refusal: Refusal) -> Reply {
        plain_reply(refusal_code(refusal))
    }
}

// A reply that has its number alone.
pub fn plain_reply(code: u64) -> Reply
    ensures { result ≡ plain code }
{
    Reply {
        code,
        count: 0,
        warning: 0,
        wanted: 0,
        held: 0,
    }
}

#[tactic(auto, unfolding(crate::specs::Replies::too_few))]
pub fn too_few(needed: u64) -> Reply
    ensures { result ≡ too_few needed }
{
    Reply {
        code: refusal_code(Refusal::TooFewPlaces),
        count: needed,
        warning: 0,
        wanted: 0,
        held: 0,
    }
}

pub fn done_reply(count: u64, warning: u64, wanted: u64, held: u64) -> Reply
    ensures { result ≡ done_reply count warning wanted held }
{
    Reply {
        code: 0,
        count,
        warning,
        wanted,
        held,
    }
}
