//! What a slot of the table is: the log of a link, and beside it what the link's reader is shown.
ghost use Rattle.std.specs.Prelude.{◌≡◌, ◌≤◌, ◌+◌, [], ◌∷◌, ◌++◌, length, IfOk, IfSome, MatchResult};
ghost use Rattle.board_model.specs.Boards.{newest, published};
ghost use Rattle.snap_boards.specs.Slots.{forecast_in, log_of, is_settled, is_prepared};

use crate::copies::OpenCopy;
use crate::newest::Newest;
use crate::ready::{Beside, Ready};
use crate::version_rule::{
    ReadGuard, ReaderLooks, ReaderReceives, VersionWriter, WriterPublishes, WriterShares,
};
use board_model::{BoardLog, Forecast};
use core::mem::replace_with;
use left_right::writer::Writer;
use link_boards::LinkSlot;
use std::alloc::{AllocError, Global};
use std::marker::Model;
use std::sync::Wait;

/// The log of a link, and what its reader is shown. Contracts see the log, and the versions that were shown.
///
/// docs/DESIGN.md, "Boards whose forecasts are read beside the writer".
pub struct SnapLog {
    log: BoardLog,
    shower: VersionWriter,
}

impl Model for SnapLog {
    ghost use Rattle.std.specs.Prelude.{◌≡◌, length};
    ghost use Rattle.snap_boards.specs.Views.{SnapView, snap_view};

    ghost Value = { SnapView };

    ghost view = { λ s. snap_view s.log s.shower.desk.place.me.0.client };

    ghost invariant = { λ s. length s.shower.desk.place.me.0.client ≡ s.shower.desk.shown.value.version };
}

/// Shows the next version.
fn show<R: Wait>(
    rt: &R,
    mut shower: VersionWriter,
    next: Newest,
) -> (VersionWriter, Result<(), AllocError>)
    requires full { length (shower.desk.place.me.0.client) ≡ shower.desk.shown.value.version }
    requires next { next.version ≡ shower.desk.shown.value.version + 1 }
    ensures told { MatchResult result.1
        (λ _. result.0.desk.place.me.0.client ≡ shower.desk.place.me.0.client ++ next.forecast ∷ [])
        (λ _. result.0.desk.place.me.0.client ≡ shower.desk.place.me.0.client) }
    ensures full { length (result.0.desk.place.me.0.client) ≡ result.0.desk.shown.value.version }
{
    let Ok(()) = shower.append(next) else {
        return (shower, Err(AllocError));
    };
    shower.publish_as::<WriterPublishes, R>(rt)
}

impl SnapLog {
    /// The log of no event, of which nothing is shown but the empty forecast.
    pub(crate) fn new(alloc: Global) -> Result<SnapLog, AllocError>
        ensures { IfOk result (λ s. (s.events ≡ []) × (s.told ≡ [])) }
    {
        let first = Newest {
            alloc,
            version: 0,
            forecast: Forecast::empty(alloc),
        };
        let second = Newest {
            alloc,
            version: 0,
            forecast: Forecast::empty(alloc),
        };
        let shower = Writer::new(alloc, first, second, 1)?;
        Ok(SnapLog {
            log: BoardLog::new(alloc),
            shower,
        })
    }

    /// Waits for the reader, and gives the log.
    pub(crate) fn end<R: Wait>(self, rt: &R) -> BoardLog
        ensures { result.events ≡ self.events }
    {
        let SnapLog { log, shower } = self;
        drop(shower.take(rt));
        log
    }

    /// Looks at the newest version, where a place for a reader is free and what is shown is that version; else none.
    fn look(&mut self) -> Option<ReadGuard>
        requires { self.old.told ≡ published self.old.events }
        ensures same { self.new ≡ self.old }
        ensures seen { IfSome result (λ look. look.part.value.forecast ≡ newest self.old.events) }
    {
        let mut looker = self.shower.factory().reader().ok()?;
        looker.learn::<ReaderReceives>(self.shower.tell::<WriterShares>());
        let look = looker.enter_as::<ReaderLooks>().ok()?;
        if look.get().version == self.log.version() as u64 {
            return Some(look);
        }
        drop(look.leave());
        None
    }
}

impl LinkSlot for SnapLog {
    type Ready = Ready;

    ghost absent = { record { events = []; spare = 0; told = [] } };

    ghost log = { log_of };

    ghost settled = { is_settled };

    ghost prepared = { is_prepared };

    ghost ready = { forecast_in };

    fn reserve(&mut self) -> Result<(), AllocError> {
        self.log.reserve()
    }

    fn prepare_read(&mut self, alloc: Global) -> Result<Ready, AllocError> {
        let Some(look) = self.look() else {
            return Ok(Ready::Copied(self.log.newest(alloc)?));
        };
        match Forecast::with_capacity(alloc, look.get().forecast.rows().len()) {
            Ok(blank) => Ok(Ready::Beside(Beside { look, blank })),
            Err(error) => {
                drop(look.leave());
                Err(error)
            }
        }
    }

    fn note_read(&mut self, stamp: u64, node: u32) -> u32 {
        self.log.note_read(stamp, node)
    }

    fn finish<R: Wait>(rt: &R, of: Ready) -> Forecast {
        of.finish(rt, &OpenCopy)
    }

    fn prepare_publish<R: Wait>(&mut self, rt: &R, f: &Forecast) -> Result<(), AllocError> {
        let alloc = self.shower.published().alloc;
        let next = Newest {
            alloc,
            version: self.log.version() as u64 + 1,
            forecast: f.copy(alloc)?,
        };
        replace_with(&mut self.shower, next, |shower, next| {
            show(rt, shower, next)
        })
    }

    fn note_publish(&mut self, stamp: u64, node: u32, f: Forecast) -> u32 {
        self.log.note_publish(stamp, node, f)
    }
}
