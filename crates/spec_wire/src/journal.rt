//! Definitions alone: which bytes of a disk stand for which bodies of a journal, and what a crash at
//! any moment since a moment may leave.
