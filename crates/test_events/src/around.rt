// What stands around a request, by the options behind its words: `on=CONNECTION`, `in=SESSION`, `tree=TREE`, `message=ID`, `client=GUID`,
// `seq=SEQUENCE`, the flags `replay` and `fault`; of a SESSION_SETUP also `prev=SESSION`, `cipher=NUMBER`, `signing=NUMBER`,
// `by=CONNECTION` whose signing key signs it, and the flags `bind` and `alone`.
use crate::event_calls::Envelope;
use crate::words::{has, number_or, option, short_or, small_or};

const ACCESS_DENIED: u32 = 0xc000_0022;

/// The envelope of a request, in a session where it names none.
pub fn envelope_of(words: &[&str], session: u64) -> Envelope {
    let signs = option(words, "by").is_some();
    let faulty = has(words, "fault");
    Envelope {
        connection: small_or(words, "on", 1),
        client: number_or(words, "client", 1) as u128,
        session: number_or(words, "in", session),
        tree: small_or(words, "tree", 1),
        message: number_or(words, "message", 9),
        sequence: short_or(words, "seq", 0),
        replay: has(words, "replay"),
        fault: if faulty { Some(ACCESS_DENIED) } else { None },
        binding: has(words, "bind"),
        previous: number_or(words, "prev", 0),
        cipher: short_or(words, "cipher", 2),
        signing: short_or(words, "signing", 1),
        signed_by: if signs {
            Some(small_or(words, "by", 0))
        } else {
            None
        },
        alone: has(words, "alone"),
    }
}
