//! The rule of what the reader of one link is shown, and the names of its steps.
ghost use Rattle.std.specs.Prelude.{[]};
ghost use Rattle.snap_boards.specs.Versions.{AreVersions, sees, shows};

use crate::newest::Newest;
use atomic_table::{Join, Split};
use board_model::Forecast;
use crossbeam_utils::rule::{Outcome, Protocol};
use left_right::reader::{Reader, Reading};
use left_right::writer::Writer;
use std::collections::LinkedList;

/// The versions of a link grow, and what is shown is the last one. A view is a beginning of them.
pub struct VersionRule;

impl Protocol<Newest, LinkedList<Forecast>> for VersionRule {
    ghost holds = { AreVersions };

    ghost first = { [] };
}

/// A reader looks.
pub(crate) struct ReaderLooks;

impl Outcome<Newest, LinkedList<Forecast>> for ReaderLooks {
    ghost then = { sees };
}

/// The writer shows one version more.
pub(crate) struct WriterPublishes;

impl Outcome<Newest, LinkedList<Forecast>> for WriterPublishes {
    ghost then = { shows };
}

/// The writer tells all that it knows.
pub(crate) struct WriterShares;

impl Split<LinkedList<Forecast>> for WriterShares {
    ghost left = { λ told. told };

    ghost right = { λ told. told };
}

/// A reader takes in what the writer told.
pub(crate) struct ReaderReceives;

impl Join<LinkedList<Forecast>> for ReaderReceives {
    ghost both = { λ known told. told };

    ghost spent = { [] };
}

pub(crate) type VersionWriter = Writer<Newest, Newest, LinkedList<Forecast>, VersionRule>;

pub(crate) type VersionReader = Reader<Newest, LinkedList<Forecast>, VersionRule>;

pub(crate) type ReadGuard = Reading<Newest, LinkedList<Forecast>, VersionRule>;
