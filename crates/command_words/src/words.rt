//! The commands, and the words that each has.
ghost use Rattle.std.specs.Prelude.{◌≡◌, ◌≢◌, ◌^◌, ◌<◌, ◌≤◌, ◌↔◌, ℕ, List, [], ◌∷◌, IfSome, IfNone, IsTrue, codes};
ghost use Rattle.std.specs.Fmt.{decimal};
ghost use Rattle.scenario_gen.specs.{Grids.AreRounds, Layout.IsSide};
ghost use Rattle.command_words.specs.{Calls.Call, Calls.IsCall, Calls.IsOfControllers, Calls.IsOverNetwork, Calls.call_of, Factors.AreFactors};

use foundation::text::Text;
use text_lines::{number_u32, number_u64, number_within};

/// What the program can be told to do, with the further words.
///
/// docs/FORMATS.md, "Words".
#[derive(Clone, Copy)]
pub enum Command<'a> {
    /// Writes the best answer of an instance.
    Plan {
        file: &'a str,
    },
    /// Writes the certificate of an instance.
    Certify {
        file: &'a str,
    },
    /// Writes the certificate of an instance by its bounded table.
    CertifyBound {
        file: &'a str,
    },
    /// Writes the certificate of an instance, the layers of its table extended in pieces of a width.
    CertifyPar {
        file: &'a str,
        width: u32,
    },
    /// Writes the verdict on a certificate.
    Check {
        file: &'a str,
    },
    /// Writes the report of the run of the turn order.
    Turns {
        net: &'a str,
        arr: &'a str,
    },
    /// Writes what the run of the turn order counted, of each link and in all.
    Totals {
        net: &'a str,
        arr: &'a str,
    },
    /// Writes the report of the run of a history.
    Replay {
        net: &'a str,
        arr: &'a str,
        hist: &'a str,
    },
    /// Writes the report of a run in threads.
    Net {
        net: &'a str,
        arr: &'a str,
    },
    /// Writes the instance that a node planned in a round of the run of a history.
    Instance {
        net: &'a str,
        arr: &'a str,
        hist: &'a str,
        node: &'a str,
        round: u32,
    },
    /// Writes the report of the run under actuated control.
    Actuate {
        net: &'a str,
        arr: &'a str,
    },
    /// Writes the report of the run under a fixed plan.
    Fixed {
        net: &'a str,
        arr: &'a str,
        plan: &'a str,
    },
    /// Writes what two runs counted in all: that of the turn order, and that under actuated control.
    Compare {
        net: &'a str,
        arr: &'a str,
    },
    /// Writes the same, and what the run under a fixed plan counted in all.
    CompareFixed {
        net: &'a str,
        arr: &'a str,
        plan: &'a str,
    },
    /// Writes what two runs counted in all for arrivals scaled by each of some factors, at most 20, in thousandths.
    Scale {
        net: &'a str,
        arr: &'a str,
        first: u32,
        last: u32,
        step: u32,
    },
    /// Writes what two runs counted in all where each link holds so much and no more.
    Spill {
        net: &'a str,
        arr: &'a str,
        store: &'a str,
    },
    /// Writes the report of the run under actuated control where each link holds so much and no more.
    SpillActuated {
        net: &'a str,
        arr: &'a str,
        store: &'a str,
    },
    /// Writes what is decided in the round of a state.
    Decide {
        net: &'a str,
        state: &'a str,
    },
    /// Writes what one node decides in the round of a state.
    DecideNode {
        net: &'a str,
        state: &'a str,
        node: &'a str,
    },
    /// Writes the verdict on what a report says of greens and totals.
    Audit {
        net: &'a str,
        arr: &'a str,
        report: &'a str,
    },
    /// Writes the queues over time under the greens of a report that `audit` accepts.
    Queues {
        net: &'a str,
        arr: &'a str,
        report: &'a str,
    },
    /// Writes the summary of the run of the turn order on the grid of a number.
    Grid {
        number: u64,
        side: u32,
        rounds: u32,
    },
    /// Writes a network as a file of the least version that says it.
    Upgrade {
        net: &'a str,
    },
    /// Writes how long the queues of each phase of a network can wait.
    Bounds {
        net: &'a str,
    },
    /// Writes the same, how long they can wait under a fixed plan, and how long the reds of each phase are under it.
    BoundsFixed {
        net: &'a str,
        plan: &'a str,
    },
}

/// The command that the words are; none where they are those of no command.
///
/// docs/FORMATS.md, "Words".
pub fn command_of(words: &[Text]) -> Option<Command<'_>>
    ensures some { IfSome result (λ command. IsCall words.now (call_of command)) }
    ensures none { IfNone result ((call : Call) → ¬ IsCall words.now call) }
{
    let (word, rest) = words.split_first()?;
    match word.as_str() {
        "plan" => Some(Command::Plan {
            file: only_word(rest)?,
        }),
        "certify" => Some(Command::Certify {
            file: only_word(rest)?,
        }),
        "certify_bound" => Some(Command::CertifyBound {
            file: only_word(rest)?,
        }),
        "certify_par" => {
            let (file, width) = word_and_width(rest)?;
            Some(Command::CertifyPar { file, width })
        }
        "check" => Some(Command::Check {
            file: only_word(rest)?,
        }),
        "grid" => {
            let (number, side, rounds) = grid_numbers(rest)?;
            Some(Command::Grid {
                number,
                side,
                rounds,
            })
        }
        "upgrade" => Some(Command::Upgrade {
            net: only_word(rest)?,
        }),
        "bounds" => bounds_of(rest),
        _ => network_command(word.as_str(), rest),
    }
}

// The command of this word over a network, and what enters it or a state of it, with these words after it.
fn network_command<'a>(word: &str, rest: &'a [Text]) -> Option<Command<'a>>
    ensures some { IfSome result (λ command. IsCall (word.now ∷ rest.now) (call_of command)) }
    ensures none { IfNone result ((call : Call) → IsOverNetwork call → ¬ IsCall (word.now ∷ rest.now) call) }
{
    match word {
        "turns" => {
            let (net, arr) = two_words(rest)?;
            Some(Command::Turns { net, arr })
        }
        "totals" => {
            let (net, arr) = two_words(rest)?;
            Some(Command::Totals { net, arr })
        }
        "replay" => {
            let (net, arr, hist) = three_words(rest)?;
            Some(Command::Replay { net, arr, hist })
        }
        "net" => {
            let (net, arr) = two_words(rest)?;
            Some(Command::Net { net, arr })
        }
        "instance" => {
            let (net, arr, hist, node, round) = four_words_and_number(rest)?;
            Some(Command::Instance {
                net,
                arr,
                hist,
                node,
                round,
            })
        }
        "audit" => {
            let (net, arr, report) = three_words(rest)?;
            Some(Command::Audit { net, arr, report })
        }
        "queues" => {
            let (net, arr, report) = three_words(rest)?;
            Some(Command::Queues { net, arr, report })
        }
        _ => controllers_command(word, rest),
    }
}

// The command of this word that runs a network under other controllers than the planners, or under several, or decides a round
// of it, with these words after it.
fn controllers_command<'a>(word: &str, rest: &'a [Text]) -> Option<Command<'a>>
    ensures some { IfSome result (λ command. IsCall (word.now ∷ rest.now) (call_of command)) }
    ensures none { IfNone result ((call : Call) → IsOfControllers call → ¬ IsCall (word.now ∷ rest.now) call) }
{
    match word {
        "actuate" => {
            let (net, arr) = two_words(rest)?;
            Some(Command::Actuate { net, arr })
        }
        "fixed" => {
            let (net, arr, plan) = three_words(rest)?;
            Some(Command::Fixed { net, arr, plan })
        }
        "compare" => comparison_of(rest),
        "spill" => spilling_of(rest),
        "decide" => decision_of(rest),
        "scale" => {
            let (net, arr, first, last, step) = two_words_and_factors(rest)?;
            Some(Command::Scale {
                net,
                arr,
                first,
                last,
                step,
            })
        }
        _ => None,
    }
}

// The comparison of two runs, or of three, where the words are those after `compare`.
fn comparison_of(words: &[Text]) -> Option<Command<'_>>
    ensures some { IfSome result (λ command. IsCall (codes "compare" ∷ words.now) (call_of command)) }
    ensures none { IfNone result ((call : Call) → ¬ IsCall (codes "compare" ∷ words.now) call) }
{
    match words {
        [net, arr] => Some(Command::Compare {
            net: net.as_str(),
            arr: arr.as_str(),
        }),
        [net, arr, plan] => Some(Command::CompareFixed {
            net: net.as_str(),
            arr: arr.as_str(),
            plan: plan.as_str(),
        }),
        _ => None,
    }
}

// The totals of two runs where each link holds so much and no more, or the report of that under actuated control, where the
// words are those after `spill`.
fn spilling_of(words: &[Text]) -> Option<Command<'_>>
    ensures some { IfSome result (λ command. IsCall (codes "spill" ∷ words.now) (call_of command)) }
    ensures none { IfNone result ((call : Call) → ¬ IsCall (codes "spill" ∷ words.now) call) }
{
    match words {
        [net, arr, store] => Some(Command::Spill {
            net: net.as_str(),
            arr: arr.as_str(),
            store: store.as_str(),
        }),
        [net, arr, store, last] => spilling_under(
            net.as_str(),
            arr.as_str(),
            store.as_str(),
            last.as_str(),
        ),
        _ => None,
    }
}

// The report of the run of this network, arrivals and store under the controller that the last word names, where there is one.
fn spilling_under<'a>(net: &'a str, arr: &'a str, store: &'a str, last: &str) -> Option<Command<'a>>
    ensures some { IfSome result (λ command.
        IsCall (codes "spill" ∷ net.now ∷ arr.now ∷ store.now ∷ last.now ∷ []) (call_of command)) }
    ensures none { IfNone result ((call : Call)
        → ¬ IsCall (codes "spill" ∷ net.now ∷ arr.now ∷ store.now ∷ last.now ∷ []) call) }
{
    match last {
        "actuated" => Some(Command::SpillActuated { net, arr, store }),
        _ => None,
    }
}

// The bounds of waits, also under a fixed plan where that is named, where the words are those after `bounds`.
fn bounds_of(words: &[Text]) -> Option<Command<'_>>
    ensures some { IfSome result (λ command. IsCall (codes "bounds" ∷ words.now) (call_of command)) }
    ensures none { IfNone result ((call : Call) → ¬ IsCall (codes "bounds" ∷ words.now) call) }
{
    match words {
        [net] => Some(Command::Bounds { net: net.as_str() }),
        [net, plan] => Some(Command::BoundsFixed {
            net: net.as_str(),
            plan: plan.as_str(),
        }),
        _ => None,
    }
}

// The decision of a round, or that of one node, where the words are those after `decide`.
fn decision_of(words: &[Text]) -> Option<Command<'_>>
    ensures some { IfSome result (λ command. IsCall (codes "decide" ∷ words.now) (call_of command)) }
    ensures none { IfNone result ((call : Call) → ¬ IsCall (codes "decide" ∷ words.now) call) }
{
    match words {
        [net, state] => Some(Command::Decide {
            net: net.as_str(),
            state: state.as_str(),
        }),
        [net, state, node] => Some(Command::DecideNode {
            net: net.as_str(),
            state: state.as_str(),
            node: node.as_str(),
        }),
        _ => None,
    }
}

// The word, where there is one.
fn only_word(words: &[Text]) -> Option<&str>
    ensures some { IfSome result (λ word. words.now ≡ word.now ∷ []) }
    ensures none { IfNone result ((word : List ℕ) → words.now ≢ word ∷ []) }
{
    match words {
        [word] => Some(word.as_str()),
        _ => None,
    }
}

// The word and the width of pieces after it, where there are just these.
fn word_and_width(words: &[Text]) -> Option<(&str, u32)>
    ensures some { IfSome result (λ w. (words.now ≡ w.0.now ∷ decimal w.1 ∷ []) × (1 ≤ w.1) × (w.1 ≤ 4096)) }
    ensures none { IfNone result ((a : List ℕ) (n : ℕ) → 1 ≤ n → n ≤ 4096 → words.now ≢ a ∷ decimal n ∷ []) }
{
    match words {
        [first, last] => {
            let width = number_within(last.as_str(), 1, 4096)?;
            Some((first.as_str(), width))
        }
        _ => None,
    }
}

// The two words, where there are just two.
fn two_words(words: &[Text]) -> Option<(&str, &str)>
    ensures some { IfSome result (λ w. words.now ≡ w.0.now ∷ w.1.now ∷ []) }
    ensures none { IfNone result ((a b : List ℕ) → words.now ≢ a ∷ b ∷ []) }
{
    match words {
        [first, second] => Some((first.as_str(), second.as_str())),
        _ => None,
    }
}

// The three words, where there are just three.
fn three_words(words: &[Text]) -> Option<(&str, &str, &str)>
    ensures some { IfSome result (λ w. words.now ≡ w.0.now ∷ w.1.now ∷ w.2.now ∷ []) }
    ensures none { IfNone result ((a b c : List ℕ) → words.now ≢ a ∷ b ∷ c ∷ []) }
{
    match words {
        [first, second, third] => Some((first.as_str(), second.as_str(), third.as_str())),
        _ => None,
    }
}

// The four words and the number after them, where there are just these.
fn four_words_and_number(words: &[Text]) -> Option<(&str, &str, &str, &str, u32)>
    ensures some { IfSome result (λ w. (words.now ≡ w.0.now ∷ w.1.now ∷ w.2.now ∷ w.3.now ∷ decimal w.4 ∷ [])
        × (w.4 < 2 ^ 32)) }
    ensures none { IfNone result ((a b c d : List ℕ) (n : ℕ) → n < 2 ^ 32
        → words.now ≢ a ∷ b ∷ c ∷ d ∷ decimal n ∷ []) }
{
    match words {
        [first, second, third, fourth, last] => {
            let number = number_u32(last.as_str())?;
            Some((
                first.as_str(),
                second.as_str(),
                third.as_str(),
                fourth.as_str(),
                number,
            ))
        }
        _ => None,
    }
}

// The two words, and the first and the last of factors and the step between two after them, where there are just these.
fn two_words_and_factors(words: &[Text]) -> Option<(&str, &str, u32, u32, u32)>
    ensures some { IfSome result (λ w. (words.now ≡ w.0.now ∷ w.1.now ∷ decimal w.2 ∷ decimal w.3 ∷ decimal w.4 ∷ [])
        × AreFactors w.2 w.3 w.4) }
    ensures none { IfNone result ((a b : List ℕ) (first last step : ℕ) → AreFactors first last step
        → words.now ≢ a ∷ b ∷ decimal first ∷ decimal last ∷ decimal step ∷ []) }
{
    match words {
        [net, arr, first, last, step] => {
            let (first, last, step) = factors_of(first.as_str(), last.as_str(), step.as_str())?;
            Some((net.as_str(), arr.as_str(), first, last, step))
        }
        _ => None,
    }
}

// The numbers of the words, where they are factors of a command.
fn factors_of(first: &str, last: &str, step: &str) -> Option<(u32, u32, u32)>
    ensures some { IfSome result (λ w. (first.now ≡ decimal w.0) × (last.now ≡ decimal w.1) × (step.now ≡ decimal w.2)
        × AreFactors w.0 w.1 w.2) }
    ensures none { IfNone result ((f l s : ℕ) → AreFactors f l s → first.now ≡ decimal f → last.now ≡ decimal l
        → step.now ≢ decimal s) }
{
    let first = number_within(first, 0, 10_000)?;
    let last = number_within(last, 0, 10_000)?;
    let step = number_within(step, 1, u32::MAX)?;
    if are_factors(first, last, step) {
        Some((first, last, step))
    } else {
        None
    }
}

// Whether the words of a command may name the factors from the first to the last, a step apart.
fn are_factors(first: u32, last: u32, step: u32) -> bool
    requires most { last ≤ 10000 }
    requires apart { 1 ≤ step }
    ensures { IsTrue result ↔ AreFactors first last step }
{
    first <= last && (last - first) / step < 20
}

// The number of a grid, how many nodes a side it has, and for how many rounds, where the words are just these.
fn grid_numbers(words: &[Text]) -> Option<(u64, u32, u32)>
    ensures words { IfSome result (λ w. words.now ≡ decimal w.0 ∷ decimal w.1 ∷ decimal w.2 ∷ []) }
    ensures within { IfSome result (λ w. (w.0 < 2 ^ 64) × IsSide w.1 × AreRounds w.2) }
    ensures none { IfNone result ((number side rounds : ℕ) → number < 2 ^ 64 → IsSide side → AreRounds rounds
        → words.now ≢ decimal number ∷ decimal side ∷ decimal rounds ∷ []) }
{
    match words {
        [number, side, rounds] => {
            let number = number_u64(number.as_str())?;
            let side = number_within(side.as_str(), 2, 8)?;
            let rounds = number_within(rounds.as_str(), 1, 600)?;
            Some((number, side, rounds))
        }
        _ => None,
    }
}
