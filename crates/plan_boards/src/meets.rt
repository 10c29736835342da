//! Passes meet.
ghost use Rattle.std.specs.Prelude.{◌≡◌, max, map, All, IsOk};
ghost use Rattle.link_boards.specs.Passes.{highest, raised};

use crate::boards::{Boards, Pass};
use board_model::BoardLog;
use std::alloc::AllocError;

/// What passes that meet have told so far. Contracts see the boards that it is of, and what is known: the least stamp that
/// a pass which is told of it may draw next.
///
/// docs/DESIGN.md, "Shared boards".
pub type Meeting = link_boards::Meeting<BoardLog>;

impl Boards {
    /// The meeting hears what a pass knows, which stays as it is.
    ///
    /// docs/DESIGN.md, "Shared boards".
    pub fn collect(&self, meeting: &mut Meeting, pass: &mut Pass)
        requires boards { (meeting.old.boards ≡ self.now.id) × (pass.old.boards ≡ self.now.id) }
        ensures pass { pass.new ≡ pass.old }
        ensures boards { meeting.new.boards ≡ meeting.old.boards }
        ensures known { meeting.new.known ≡ max meeting.old.known pass.old.known }
    {
        self.shared.collect(meeting, pass);
    }

    /// A pass hears what the meeting knows. It keeps its number, its calls and its calls left.
    ///
    /// docs/DESIGN.md, "Shared boards".
    pub fn inform(&self, meeting: &mut Meeting, pass: &mut Pass)
        requires boards { (meeting.old.boards ≡ self.now.id) × (pass.old.boards ≡ self.now.id) }
        ensures pass { pass.new ≡ raised meeting.old.known pass.old }
        ensures meeting { meeting.new ≡ meeting.old }
    {
        self.shared.inform(meeting, pass);
    }

    /// Begins a meeting with what a pass knows. A caller whose passes are in places of their own lets the meeting hear each pass, and
    /// then each pass hears the meeting.
    ///
    /// docs/DESIGN.md, "Shared boards".
    pub fn begin_meeting(&self, pass: &mut Pass) -> Meeting
        requires { pass.old.boards ≡ self.now.id }
        ensures pass { pass.new ≡ pass.old }
        ensures meeting { (result.boards ≡ self.now.id) × (result.known ≡ pass.old.known) }
    {
        self.shared.begin_meeting(pass)
    }

    /// Lets passes of these boards meet: the next stamp of each is then above every stamp that one of them had drawn
    /// before. Each keeps its number, its calls and its calls left. It takes no memory, so it answers `Ok`.
    ///
    /// docs/DESIGN.md, "Shared boards".
    pub fn meet(&self, passes: &mut [Pass]) -> Result<(), AllocError>
        requires { All (λ p. p.boards ≡ self.now.id) passes.old }
        ensures ok { IsOk result }
        ensures met { passes.new ≡ map (raised (highest passes.old)) passes.old }
    {
        self.shared.meet(passes)
    }
}
