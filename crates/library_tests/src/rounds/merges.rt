//! Merges of logs.
use board_model::{BoardLog, Forecast};
use histories::merge;
use std::alloc::{AllocError, Global};
use std::test::Fail;

/// The nodes of the merge of three logs. In the last one node 0 has the stamp that node 1 has in the second.
fn merged(alloc: Global) -> Result<String, AllocError> {
    let mut ab = BoardLog::new(alloc);
    ab.publish(1, 0, Forecast::empty(alloc))
        .map_err(|refused| refused.1)?;
    ab.read(2, 1)?;
    let mut ba = BoardLog::new(alloc);
    ba.read(0, 0)?;
    ba.publish(3, 1, Forecast::empty(alloc))
        .map_err(|refused| refused.1)?;
    let mut shared = BoardLog::new(alloc);
    shared.read(3, 0)?;
    let logs = vec![in alloc; ab, ba, shared]?;
    let h = merge(alloc, logs.as_slice())?;
    let nodes = h.steps();
    format!(in alloc; "{nodes:?}")
}

#[test]
fn stamps_order_events_and_nodes_order_equal_stamps(rt: HostRuntime) -> Result<(), Fail> {
    assert_eq!(rt; merged(rt.alloc())?.as_str(), "[0, 0, 1, 0, 1]");
    Ok(())
}
