//! Splits, smoothed series, windows, the world of the worked network second by second, its run under actuated control, what is written
//! of it, and audits of its report; and a network in which a link is green in two phases.
mod actuated_runs;
mod audits;
mod lines;
mod overlaps;
mod series;
mod splits;
mod windows_of_lists;
mod world;
mod written;
