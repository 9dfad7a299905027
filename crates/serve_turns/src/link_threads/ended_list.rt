//! Which threads have ended, and which could not be begun.
use std::alloc::Global;
use std::sync::{Mutex, Wait};

/// What threads noted as their last act: the places of their links, but for those that were joined since, and whether no further link
/// is to be accepted. Of the accepting thread, the place of the last link that is let go for want of a thread.
#[derive(Drop)]
struct Notes {
    places: Vec<usize>,
    halted: bool,
    turned_away: Option<usize>,
}

/// The notes of threads, behind one lock. Where the links are counted, each is to be served, by whichever thread.
#[derive(Drop)]
pub(crate) struct EndedList {
    counted: bool,
    notes: Mutex<Notes>,
}

impl EndedList {
    pub(crate) fn new(alloc: Global, counted: bool) -> EndedList {
        EndedList {
            counted,
            notes: Mutex::new(Notes {
                places: Vec::new(alloc),
                halted: false,
                turned_away: None,
            }),
        }
    }

    /// Notes that the link at a place has ended. Where there is no room for its place, its thread is joined with the last ones.
    pub(crate) fn note<W: Wait>(&self, rt: &W, place: usize, halts: bool) {
        let mut notes = self.notes.lock(rt);
        if halts {
            notes.halted = true;
        }
        let _ = notes.places.push(place);
    }

    /// The place of a link that has ended and was not told yet.
    pub(crate) fn next<W: Wait>(&self, rt: &W) -> Option<usize> {
        self.notes.lock(rt).places.pop()
    }

    /// Notes that there is no thread for the link at a place. The accepting thread is not to wait for the peer of one link among any
    /// number: that link is turned away.
    pub(crate) fn lack_thread<W: Wait>(&self, rt: &W, place: usize) {
        if !self.counted {
            self.notes.lock(rt).turned_away = Some(place);
        }
    }

    pub(crate) fn is_turned_away<W: Wait>(&self, rt: &W, place: usize) -> bool {
        self.notes.lock(rt).turned_away == Some(place)
    }

    pub(crate) fn is_halted<W: Wait>(&self, rt: &W) -> bool {
        self.notes.lock(rt).halted
    }
}
