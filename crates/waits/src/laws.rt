//! What lawful timelines promise of greens and queues, where the intergreens are within bounds.
ghost use Rattle.std.specs.Prelude.{◌≡◌, ℕ, ◌+◌, ◌<◌, ◌≤◌, All, Bool, IsTrue, List, Some, length};
ghost use Rattle.control_flow.specs.{Greens.GoesOn, Greens.IsLawful, Greens.end_of, Greens.head_at, Greens.row_at, Greens.spliced, Recalls.without_marks, Timelines.AreServings, Timelines.line_of, Timelines.turned};
ghost use Rattle.control_flow.specs.declared.greens.Green.{Green};
ghost use Rattle.net_parts.specs.Numbers.{Net};
ghost use Rattle.net_simulator.specs.{Flow.cumulative_under, Worlds.signs_by};
ghost use Rattle.phase_plan.specs.{Phases.IsRing, Phases.is_unmarked_at, declared.Phase.Phase};
ghost use Rattle.road_net.specs.Network.{IsNetwork};
ghost use Rattle.switch_rules.specs.{Sequences.AreNextServings, Serving.IsHead, declared.Cluster.Cluster, declared.Head.Head, declared.Served.Served};
ghost use Rattle.waits.specs.{Discharges.AreEmptied, Discharges.AreWaitsWithin, Discharges.AreWholeLines, Discharges.wait_bounds, Rounds.AreRounds, Waits.AreIntergreensWithin, Waits.BeginSoon, Waits.IsGreenBy, Waits.IsGreenWithin};
ghost use Rattle.waits.specs.{Waits.longest_intergreen, Waits.longest_red};

/// Each unmarked phase of a lawful timeline, whose intergreens are within given bounds, is green within a turn of the ring in
/// which every other phase has its greatest green.
///
/// docs/RULES.md, "How long a queue can wait".
pub fn law_of_turns()
    ensures { (plan : List Phase) → IsRing plan → (intergreen : ℕ → ℕ) (rows : List Green) → IsLawful plan rows
        → AreIntergreensWithin intergreen rows → (k : ℕ) → k < length plan → IsTrue (is_unmarked_at plan k)
        → IsGreenWithin rows k (longest_red plan intergreen k) }
{}

/// The intergreens of the timelines that controllers make: of a turning ring, yellow and all-red alone; of servings whose new greens
/// begin by a second that is no more than `look` after the head, or as early as they can, no more than `look` or yellow and
/// all-red; and a splice keeps them.
///
/// docs/RULES.md, "How long a queue can wait".
pub fn law_of_intergreens()
    ensures turns { (plan : List Phase) (stops : ℕ → Bool) (head : Head) (to until look : ℕ)
        → AreIntergreensWithin (longest_intergreen plan look) (turned plan stops head to until) }
    ensures serves { (plan : List Phase) → IsRing plan → (head : Head) → IsHead plan head → head.at ≤ 104000
        → (ks : List ℕ) (ss : List Served) → AreServings plan head ks ss
        → (by look until : ℕ) → by ≤ head.at + look → BeginSoon plan by head ks ss
        → AreIntergreensWithin (longest_intergreen plan look) (line_of plan head ks ss until) }
    ensures splices { (plan : List Phase) → IsRing plan → (intergreen : ℕ → ℕ) (old next : List Green) (now : ℕ)
        → (head : Head) → IsLawful plan old → head_at plan old now ≡ Some head → GoesOn head next
        → AreIntergreensWithin intergreen old → AreIntergreensWithin intergreen next
        → AreIntergreensWithin intergreen (spliced old next) }
{}

/// New greens of a sequence begin by the last arrival of its clusters, or as early as they can.
///
/// docs/RULES.md, "Serving".
pub fn law_of_servings()
    ensures { (plan : List Phase) (lists : List (List Cluster)) (by : ℕ) → All (All (λ c. c.arr ≤ by)) lists
        → (ks left : List ℕ) (head : Head) (ss : List Served) → AreNextServings plan lists left head ks ss
        → BeginSoon plan by head ks ss }
{}

/// Rounds that continue a timeline by lawful rows with intergreens within bounds leave such a timeline; and what is lawful where fewer
/// phases are marked is lawful.
///
/// docs/RULES.md, "How long a queue can wait".
pub fn law_of_rounds()
    ensures rounds { (plan : List Phase) → IsRing plan → (intergreen : ℕ → ℕ) (rounds : ℕ) (begins : ℕ → ℕ)
        → (line : ℕ → List Green) → AreRounds plan intergreen rounds begins line
        → (r : ℕ) → r ≤ rounds → IsLawful plan (line r) × AreIntergreensWithin intergreen (line r) }
    ensures marks { (plan : List Phase) (these : ℕ → Bool) (rows : List Green)
        → IsLawful (without_marks plan these) rows → IsLawful plan rows }
{}

/// Where from a round on a phase has no mark, so that what each round splices in is lawful without it, the phase is green within
/// its longest red of the head's green of that round, and of each later second. So it is where it is recalled.
///
/// docs/RULES.md, "How long a queue can wait".
pub fn law_of_recalls()
    ensures { (plan : List Phase) (these : ℕ → Bool) → IsRing plan → (intergreen : ℕ → ℕ) (rounds : ℕ)
        → (begins : ℕ → ℕ) (line : ℕ → List Green) → (are : AreRounds plan intergreen rounds begins line)
        → ((r s : ℕ) → r ≤ s → begins r ≤ begins s) → (first : ℕ) (less : first < rounds)
        → ((r : ℕ) (inside : r < rounds) → first ≤ r → IsLawful (without_marks plan these) (are.each r inside).next)
        → (k : ℕ) → k < length (without_marks plan these) → IsTrue (is_unmarked_at (without_marks plan these) k)
        → (second : ℕ) → (row_at (are.each first less).next 0).from ≤ second
        → second + longest_red (without_marks plan these) intergreen k < end_of (line rounds)
        → IsGreenBy (line rounds) k second (second + longest_red (without_marks plan these) intergreen k) }
{}

/// Under lawful timelines with intergreens within bounds, one for each node, whoever made them, no queue of a link without a walk
/// waits for ever: where the phase is unmarked, and its least green is longer than its start-up, it loses something within the
/// longest wait, and what stands at a second leaves green by green.
///
/// docs/RULES.md, "How long a queue can wait".
pub fn law_of_waits()
    ensures waits { (net : Net) → IsNetwork net → (arriving : ℕ → ℕ → ℕ) (lines : ℕ → List Green)
        → (intergreens : ℕ → ℕ → ℕ) (end : ℕ) → AreWholeLines net intergreens end lines
        → AreWaitsWithin net (wait_bounds net intergreens) (cumulative_under net arriving (signs_by lines) end) end }
    ensures empties { (net : Net) → IsNetwork net → (arriving : ℕ → ℕ → ℕ) (lines : ℕ → List Green)
        → (intergreens : ℕ → ℕ → ℕ) (end : ℕ) → AreWholeLines net intergreens end lines
        → AreEmptied net intergreens (cumulative_under net arriving (signs_by lines) end) end }
{}
