//! The worked network a number of times, side by side in one network.
use std::alloc::{AllocError, Global};
use worked_network::NETWORK;

/// The text of a network of this number of copies, each with its number after its names: node a0 is 0, b0 is 1, a1 is 2 and so on, and
/// the links of copy k are those from 5 k on, in the order of the one network.
pub(crate) fn network_of_copies(alloc: Global, copies: u32) -> Result<String, AllocError> {
    let mut text = String::new(alloc);
    let mut rows = String::new(alloc);
    for line in NETWORK.split_inclusive('\n') {
        if line.starts_with(' ') {
            rows.push_str(line)?;
        } else {
            add_copies(&mut text, rows.as_str(), copies)?;
            rows.clear();
            text.push_str(line)?;
        }
    }
    Ok(text)
}

/// Adds these rows for each copy.
fn add_copies(text: &mut String, rows: &str, copies: u32) -> Result<(), AllocError> {
    for copy in 0..copies {
        add_copy(text, rows, copy)?;
    }
    Ok(())
}

/// Adds rows in which each name, a text in quotes, has the number of a copy after it.
fn add_copy(text: &mut String, rows: &str, copy: u32) -> Result<(), AllocError> {
    for (place, piece) in rows.split('"').enumerate() {
        if place % 2 == 0 {
            text.push_str(piece)?;
        } else {
            write!(text, "\"{piece}{copy}\"")?;
        }
    }
    Ok(())
}

/// One vehicle enters each of these copies in second 0.
pub(crate) fn vehicles_of_copies(alloc: Global, copies: u32) -> Result<String, AllocError> {
    let mut text = String::from_str(alloc, "second,link,amount\n")?;
    for copy in 0..copies {
        write!(text, "0,sa{copy},1000\n")?;
    }
    Ok(text)
}
