//! The board of one link, as one thread uses it: a log of events.
use crate::forecasts::Forecast;
use foundation::threads::CrossesThreads;
use std::alloc::{AllocError, Global};
use std::marker::Model;

/// What a reader of a board sees: the newest version, with its forecast.
///
/// docs/RULES.md, "Board".
#[derive(Debug, PartialEq, Eq, Drop)]
pub struct Seen {
    /// The version, from 0.
    pub version: u32,
    /// The stamp of the reading.
    pub stamp: u64,
    /// The forecast of the version.
    pub forecast: Forecast,
}

impl CrossesThreads for Seen {}

/// What a publisher is told: the version that its forecast became.
///
/// docs/RULES.md, "Board".
#[derive(Debug, Clone, Copy, PartialEq, Eq)]
pub struct Sent {
    /// The version, from 1.
    pub version: u32,
    /// The stamp of the publishing.
    pub stamp: u64,
}

impl CrossesThreads for Sent {}

/// What was read of the board of one link.
///
/// docs/RULES.md, "Board".
#[derive(Debug, PartialEq, Eq, Drop)]
pub struct Heard {
    /// The number of the link.
    pub link: u32,
    /// The version that was read.
    pub version: u32,
    /// The forecast of the version.
    pub forecast: Forecast,
}

impl CrossesThreads for Heard {}

/// What a node did at a board.
///
/// docs/RULES.md, "Board".
#[derive(Debug, PartialEq, Eq, Drop)]
pub enum BoardKind {
    /// It read this version.
    Read(u32),
    /// It published this forecast.
    Publish(Forecast),
}

impl CrossesThreads for BoardKind {}

/// One event of a board's log.
///
/// docs/RULES.md, "Board".
#[derive(Debug, PartialEq, Eq, Drop)]
pub struct BoardEvent {
    /// Which event was first: of two events the earlier one has the lower stamp.
    pub stamp: u64,
    /// The number of the node.
    pub node: u32,
    /// What the node did.
    pub kind: BoardKind,
}

impl CrossesThreads for BoardEvent {}

/// The log of one link's board: legal, and with at most 4,000,000,000 versions published. Contracts see the list of its
/// events, and for how many further events memory is reserved.
///
/// docs/RULES.md, "Board".
#[derive(Drop)]
pub struct BoardLog {
    events: Vec<BoardEvent>,
    /// How many forecasts were published.
    version: u32,
    /// The place of the event that published the newest one, if any did.
    place: usize,
}

impl Model for BoardLog {
    ghost use Rattle.board_model.specs.{Boards.Log, Stored.IsStored};
    ghost use Rattle.std.specs.Prelude.{◌-◌, vec_len, vec_capacity};

    ghost Value = { Log };

    ghost view = { λ log. record { events = log.events.items; spare = vec_capacity log.events - vec_len log.events } };

    ghost invariant = { λ log. IsStored log.events.items log.version log.place };
}

impl CrossesThreads for BoardLog {}

impl BoardLog {
    ghost use Rattle.std.specs.Prelude.{◌≡◌, ◌<◌, ◌≤◌, ◌+◌, [], IfOk, IfErr, IsOk, OnOk, OnErr};
    ghost use Rattle.board_model.specs.{Boards.IsLegal, Boards.most_versions, Boards.stamps, Boards.version_of, Boards.newest, Boards.after_read, Boards.after_publish, Forecasts.IsAboveLast};

    /// The log of no event. It keeps the allocator, of which its methods take their memory.
    ///
    /// docs/RULES.md, "Board".
    pub fn new(alloc: Global) -> BoardLog
        ensures { result.events ≡ [] }
    {
        BoardLog {
            events: Vec::new(alloc),
            version: 0,
            place: 0,
        }
    }

    /// How many forecasts were published, which is the newest version. At most 4,000,000,000.
    ///
    /// docs/RULES.md, "Board".
    pub fn version(&self) -> u32
        ensures value { result ≡ version_of self.now.events }
        ensures bounds { result ≤ most_versions }
        ensures legal { IsLegal self.now.events }
    {
        self.version
    }

    /// The events, in the order of their stamps.
    ///
    /// docs/RULES.md, "Board".
    pub fn events(&self) -> &[BoardEvent]
        ensures value { result.now ≡ self.now.events }
        ensures legal { IsLegal self.now.events }
    {
        self.events.as_slice()
    }

    /// A copy of the newest version's forecast. `Err`: out of memory.
    ///
    /// docs/RULES.md, "Board".
    pub fn newest(&self, alloc: Global) -> Result<Forecast, AllocError>
        ensures { IfOk result (λ forecast. forecast ≡ newest self.now.events) }
    {
        match self.events.get(self.place) {
            Some(
                BoardEvent {
                    kind: BoardKind::Publish(forecast),
                    ..
                },
            ) => forecast.copy(alloc),
            _ => Ok(Forecast::empty(alloc)),
        }
    }

    /// Reserves memory for at least one event, where none is reserved yet. `Err`: out of memory; all stays as it was.
    ///
    /// docs/RULES.md, "Board".
    pub fn reserve(&mut self) -> Result<(), AllocError>
        ensures events { self.new.events ≡ self.old.events }
        ensures ok { OnOk result (1 ≤ self.new.spare) }
        ensures kept { self.old.spare ≤ self.new.spare }
        ensures enough { 1 ≤ self.old.spare → IsOk result }
        ensures refused { OnErr result (self.new ≡ self.old) }
    {
        self.events.reserve(1)
    }

    /// Adds the event of a reading, and answers the version that is read. The stamp is above the last one, and memory
    /// is reserved. It takes none.
    ///
    /// docs/RULES.md, "Board".
    pub fn note_read(&mut self, stamp: u64, node: u32) -> u32
        requires above { IsAboveLast (stamps self.old.events) stamp }
        requires spare { 1 ≤ self.old.spare }
        ensures version { result ≡ version_of self.old.events }
        ensures events { self.new.events ≡ after_read self.old.events stamp node }
        ensures spare { self.new.spare + 1 ≡ self.old.spare }
    {
        self.events.push_reserved(BoardEvent {
            stamp,
            node,
            kind: BoardKind::Read(self.version),
        });
        self.version
    }

    /// Adds the event of a publishing, and answers the version that the forecast becomes. The stamp is above the last
    /// one, fewer than 4,000,000,000 versions were published, and memory is reserved. It takes none.
    ///
    /// docs/RULES.md, "Board".
    pub fn note_publish(&mut self, stamp: u64, node: u32, f: Forecast) -> u32
        requires above { IsAboveLast (stamps self.old.events) stamp }
        requires few { version_of self.old.events < most_versions }
        requires spare { 1 ≤ self.old.spare }
        ensures version { result ≡ version_of self.old.events + 1 }
        ensures events { self.new.events ≡ after_publish self.old.events stamp node f }
        ensures spare { self.new.spare + 1 ≡ self.old.spare }
    {
        self.place = self.events.len();
        self.version += 1;
        self.events.push_reserved(BoardEvent {
            stamp,
            node,
            kind: BoardKind::Publish(f),
        });
        self.version
    }

    /// Reads the board: answers the newest version, with a copy of its forecast and the stamp, and adds the event. The
    /// stamp is above the last one.
    ///
    /// `Err`: out of memory; all stays as it was.
    ///
    /// docs/RULES.md, "Board".
    pub fn read(&mut self, stamp: u64, node: u32) -> Result<Seen, AllocError>
        requires { IsAboveLast (stamps self.old.events) stamp }
        ensures ok { IfOk result (λ seen. seen ≡ record {
          version = version_of self.old.events;
          stamp = stamp;
          forecast = newest self.old.events;
        }) }
        ensures events { OnOk result (self.new.events ≡ after_read self.old.events stamp node) }
        ensures refused { OnErr result (self.new ≡ self.old) }
    {
        let forecast = self.newest(*self.events.allocator())?;
        self.reserve()?;
        let version = self.note_read(stamp, node);
        Ok(Seen {
            version,
            stamp,
            forecast,
        })
    }

    /// Publishes a forecast: adds the event, and answers the version that the forecast became. The stamp is above the
    /// last one, and fewer than 4,000,000,000 versions were published.
    ///
    /// `Err`: out of memory, with the forecast; all stays as it was.
    ///
    /// docs/RULES.md, "Board".
    pub fn publish(
        &mut self,
        stamp: u64,
        node: u32,
        f: Forecast,
    ) -> Result<Sent, (Forecast, AllocError)>
        requires above { IsAboveLast (stamps self.old.events) stamp }
        requires few { version_of self.old.events < most_versions }
        ensures ok { IfOk result (λ sent. sent ≡ record {
          version = version_of self.old.events + 1;
          stamp = stamp;
        }) }
        ensures events { OnOk result (self.new.events ≡ after_publish self.old.events stamp node f) }
        ensures back { IfErr result (λ refused. refused.0 ≡ f) }
        ensures refused { OnErr result (self.new ≡ self.old) }
    {
        match self.reserve() {
            Ok(()) => Ok(Sent {
                version: self.note_publish(stamp, node, f),
                stamp,
            }),
            Err(error) => Err((f, error)),
        }
    }
}
