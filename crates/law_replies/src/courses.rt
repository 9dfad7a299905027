//! Laws of the exchange over bytes on scripts: the events of a script's course lead to its world, and what the laws on runs ask of a run's
//! events is told by the script's own lines.
//!
//! Each law is a public function with an empty body; its contract is the statement, which stands in `specs`.

ghost use Rattle.law_replies.specs.courses.Courses.{CourseRuns, CoursesAreShort, PlainCoursesArePlain, RefusalIsTheFirst};

/// The events of a script's course lead from the opening world to the course's world, with tampering or without.
pub fn course_runs_law()
    ensures runs { CourseRuns }
{}

/// A course has as many restarts as its script has lines of them, crashes among them, and as many submits: a push, a link and a settle
/// come to none.
pub fn courses_are_short_law()
    ensures short { CoursesAreShort }
{}

/// A script without a forge and a flip comes to events of the network alone.
pub fn plain_courses_law()
    ensures plain { PlainCoursesArePlain }
{}

/// Where no line of a script is refused, the event of each line is met in the world of those in front of it.
pub fn first_error_law()
    ensures met { RefusalIsTheFirst }
{}
