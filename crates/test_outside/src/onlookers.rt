// Who looks on is told of each answer, before it goes out.
use crate::turns::{Counting, NEGOTIATE, no_turns, outside};
use base_outside::{Link, MemLink};
use serve_turns::{Begun, BookSeat, Ended, EventBook, Onlooker, SharedBook, serve_before};
use std::sync::atomic::{AtomicU64, Ordering};
use std::test::Fail;
use wire_bytes::Bytes;

/// Counts the answers that it is told of, and their bytes.
#[derive(Drop)]
struct Telling {
    answers: AtomicU64,
    bytes: AtomicU64,
}

impl Onlooker<Counting> for Telling {
    ghost use Rattle.std.specs.Prelude.{⊤};

    ghost knows = { λ telling answer. ⊤ };

    fn before_write<L: Link>(
        &self,
        _begun: &Begun<Counting, L>,
        _seat: &BookSeat<EventBook<Counting>>,
        _link: &L,
        answer: &[u8],
    ) {
        self.answers.fetch_add(1, Ordering::SeqCst);
        self.bytes.fetch_add(answer.len() as u64, Ordering::SeqCst);
    }
}

/// An ECHO (MS-SMB2 2.2.28) behind its length, with the message id 1.
const ECHO: &str = concat!(
    "00000044fe534d4240000000000000000d00010000000000000000000100000000000000000000000000000000000000",
    "000000000000000000000000000000000000000004000000"
);

#[test]
fn each_answer_is_told_of_before_it_goes_out(rt: HostRuntime) -> Result<(), Fail> {
    let alloc = rt.alloc();
    let outside = outside(alloc);
    let mut sent = hex::decode(alloc, NEGOTIATE)?;
    sent.extend_from_slice(&hex::decode(alloc, ECHO)?)?;
    let mut link = MemLink::new(alloc, Bytes::from_vec(sent), Bytes::new(alloc))?;
    let telling = Telling {
        answers: AtomicU64::new(0),
        bytes: AtomicU64::new(0),
    };
    let (book, mut seat) = SharedBook::new(alloc, no_turns(alloc, 1))?;
    let end = serve_before(
        &rt, &outside, &telling, &mut link, &book, &mut seat, 1, false,
    );
    let told = telling.bytes.load(Ordering::SeqCst);
    assert_eq!(rt; end, Ended::Closed);
    assert_eq!(rt; telling.answers.load(Ordering::SeqCst), 2);
    assert!(rt; told > 0 && told == link.written().len() as u64);
    Ok(())
}
