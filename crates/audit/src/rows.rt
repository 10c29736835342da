//! The first row of a sheet's lines that is against the law.

ghost use Rattle.std.specs.Prelude.{◌≡◌, ℕ, ◌<◌, ◌^◌, All, IfNone, IfSome, length};
ghost use Rattle.audit.specs.{Audits.AllRows, Audits.AreLawful, Audits.FollowsAt, Audits.IsFirstRow, Audits.IsGreenAt, Audits.IsWhy, SheetTexts.HasShape};
ghost use Rattle.foundation.specs.Firsts.{FromOne, IsFirstWithout};
ghost use Rattle.road_net.specs.Network.{IsNetwork};

use super::findings::AuditWhy;
use crate::sheet::Sheet;
use control_flow::greens::Green;
use control_flow::{follows, is_green};
use foundation::items::Items;
use phase_plan::PhasePlan;
use road_net::Network;

/// Why the lines of a sheet are not lawful: its first row that is no green, or else the first that may not follow the
/// one before it.
pub(crate) fn first_unlawful(net: &Network, sheet: &Sheet) -> Option<AuditWhy>
    requires shape { HasShape net.now sheet.now }
    requires rows { All (λ rows. length rows < 2 ^ 32) sheet.now.lines }
    ensures none { IfNone result (AreLawful net.now sheet.now.lines) }
    ensures some { IfSome result (λ why. (arriving : ℕ → ℕ → ℕ) → IsWhy net.now arriving sheet.now why) }
    ensures network { IsNetwork net.now }
{
    let lines = sheet.lines.as_slice();
    if let Some((node, row)) = first_no_green(net, lines) {
        return Some(AuditWhy::Span { node, row });
    }
    if let Some((node, row)) = first_no_next(net, lines) {
        return Some(AuditWhy::Next { node, row });
    }
    None
}

/// The node and the number, from 1, of the first row that is no green of its node's plan.
fn first_no_green(net: &Network, lines: &[Items<Green>]) -> Option<(u32, u32)>
    requires count { length lines.now ≡ length net.now.node_names }
    requires rows { All (λ rows. length rows < 2 ^ 32) lines.now }
    ensures none { IfNone result ((n : ℕ) → n < length net.now.node_names → AllRows IsGreenAt net.now lines.now n) }
    ensures some { IfSome result (λ found. IsFirstRow IsGreenAt net.now lines.now found.0 found.1) }
    ensures network { IsNetwork net.now }
{
    for node in 0..net.nodes() {
        if let Some(row) = no_green(net.plan(node), lines[node as usize].as_slice()) {
            return Some((node, row));
        }
    }
    None
}

/// The number, from 1, of the first row that is no green of the plan.
fn no_green(plan: &PhasePlan, rows: &[Green]) -> Option<u32>
    requires { length rows.now < 2 ^ 32 }
    ensures none { IfNone result ((k : ℕ) → k < length rows.now → IsGreenAt plan.now rows.now k) }
    ensures some { IfSome result (FromOne (IsFirstWithout (IsGreenAt plan.now rows.now) (length rows.now))) }
{
    for index in 0..rows.len() {
        if !is_green(plan, &rows[index]) {
            return Some(index as u32 + 1);
        }
    }
    None
}

/// The node and the number, from 1, of the first row that may not follow the one before it, where all are greens.
fn first_no_next(net: &Network, lines: &[Items<Green>]) -> Option<(u32, u32)>
    requires count { length lines.now ≡ length net.now.node_names }
    requires rows { All (λ rows. length rows < 2 ^ 32) lines.now }
    requires greens { (n : ℕ) → n < length net.now.node_names → AllRows IsGreenAt net.now lines.now n }
    ensures none { IfNone result ((n : ℕ) → n < length net.now.node_names → AllRows FollowsAt net.now lines.now n) }
    ensures some { IfSome result (λ found. IsFirstRow FollowsAt net.now lines.now found.0 found.1) }
{
    for node in 0..net.nodes() {
        if let Some(row) = no_next(net.plan(node), lines[node as usize].as_slice()) {
            return Some((node, row));
        }
    }
    None
}

/// The number, from 1, of the first row that may not follow the one before it, where all are greens of the plan.
fn no_next(plan: &PhasePlan, rows: &[Green]) -> Option<u32>
    requires few { length rows.now < 2 ^ 32 }
    requires greens { (k : ℕ) → k < length rows.now → IsGreenAt plan.now rows.now k }
    ensures none { IfNone result ((k : ℕ) → k < length rows.now → FollowsAt plan.now rows.now k) }
    ensures some { IfSome result (FromOne (IsFirstWithout (FollowsAt plan.now rows.now) (length rows.now))) }
{
    for index in 1..rows.len() {
        if !follows(plan, &rows[index - 1], &rows[index]) {
            return Some(index as u32 + 1);
        }
    }
    None
}
