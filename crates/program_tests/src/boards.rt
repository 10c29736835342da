//! Shared boards: calls one after another, calls of two threads at once, calls that wait for one another, and copies that go on beside
//! the writer.
mod at_once;
mod copies;
mod example;
mod waiters;
