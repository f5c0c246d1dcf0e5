//! Laws of static components and of flat instances: each function does nothing, and its clause is the law.

ghost use Rattle.std.specs.Prelude.{◌≡◌, ◌⊎◌, ◌≤◌, ℕ, true, List, [], Option, Some, length};
ghost use Rattle.cx_text.specs.declared.places.Place.{Place};
ghost use Rattle.cx_meaning.specs.declared.ports.PortRef.{PortRef};
ghost use Rattle.cx_meaning.specs.declared.ports.PortRef.TheVariants.{Input};
ghost use Rattle.cx_meaning.specs.Designs.{PlainDesign, PlainForm};
ghost use Rattle.cx_meaning.specs.Instances.{Instance, IsSettled, State, cells_of, idle, part_of, start, tree_of};
ghost use Rattle.cx_meaning.specs.Active.{Active, entries};
ghost use Rattle.cx_meaning.specs.Sights.{Held, seen};
ghost use Rattle.cx_meaning.specs.Cycles.{cycle};
ghost use Rattle.cx_meaning.specs.Answers.{turns_of};
ghost use Rattle.cx_meaning.specs.Islands.{active_in, form_flat, form_length};
ghost use Rattle.cx_meaning.specs.Islands as islands;
ghost use Rattle.cx_meaning.specs.Calls as calls;
ghost use Rattle.cx_meaning.specs.Running.{Children, run_control, run_main};
ghost use Rattle.cx_rules.specs.Counts.{counted_cells, counted_depth, counted_design_size, counted_instances, counted_weight};
ghost use Rattle.cx_rules.specs.Sizes.{depth_below, design_size, instances_below, weight_below, weight_of, words_below};
ghost use Rattle.cx_rules.specs.ShapeRules.{BreaksAlwaysEnable, BreaksCombEnable, BreaksDoneNotState, BreaksInvokeLength, BreaksKept};
ghost use Rattle.cx_rules.specs.ShapeRules.{BreaksLength, BreaksNoDone, BreaksOutputNotState, BreaksStaticTest};
ghost use Rattle.cx_rules.specs.ShapeRules.{BreaksPartLength, BreaksStaticControl, BreaksStaticGuard, GroupBreaksStaticShape};
ghost use Rattle.cx_rules.specs.LimitRule.{BreaksWords, count_in, is_too_many};
ghost use Rattle.cx_rules.specs.CallShape.{BreaksCallShape, GroupBreaksCallShape};
ghost use Rattle.cx_rules.specs.InvokeShape.{BreaksInvoke, BreaksStaticCell};
ghost use Rattle.cx_rules.specs.Spots.{OnAssign, OnGroup, OnStatement, Spot};
ghost use Rattle.cx_rules.specs.Externals.{external_rows};
ghost use Rattle.cx_rewrites.specs.FlatRules.{BreaksCells, BreaksDepth, BreaksGroups, BreaksInstances};
ghost use Rattle.cx_rewrites.specs.FlatRules.{BreaksStatement, BreaksWeight};
ghost use Rattle.cx_rewrites.specs.FlatRules as flat_rules;
ghost use Rattle.cx_rules.specs.Flat.{ArePlainNames, IsFlat};
ghost use Rattle.cx_rules.specs.Accepted.{IsAccepted, KeepsStage};
ghost use Rattle.cx_rules.specs.Ports.{component_of};
ghost use Rattle.cx_rules.specs.Wellformed.{IsDesign};
ghost use Rattle.cx_rules.specs.Invokes.{form_lasts};
ghost use Rattle.cx_flattening.specs.Events.{spot};
ghost use Rattle.cx_flattening.specs.Deeds.{Deed, History, deeds_in, own_entries};
ghost use Rattle.cx_flattening.specs.Whole.{call, group_turn, whole_control, whole_cycle, whole_island, whole_main};
ghost use Rattle.cx_flattening.specs.Flattened.{flat_form, flat_kids, flat_part, kept_at};
ghost use Rattle.cx_flattening.specs.FlatDesign.{flat_design, is_reached, reached_below};
ghost use Rattle.cx_flattening.specs.Acting.{ActsAs};
ghost use Rattle.cx_flattening.specs.Embedded.{IsFlattened, Stands};
ghost use Rattle.cx_flattening.specs.Levels.{IsKnown, OutputsSeen, own_of};
ghost use Rattle.cx_flattening.specs.Fair.{AllFair};
ghost use Rattle.cx_flattening.specs.Seeing.{CellsSeen};
ghost use Rattle.cx_flattening.specs.FlatFaults.{CycleAs};
ghost use Rattle.cx_flattening.specs.Beside.{IsBeside};
ghost use Rattle.cx_flattening.specs.Turning.{IsGroupBeside, TestAs, TurnAs};
ghost use Rattle.cx_flattening.specs.Controlled.{AllControlled};
ghost use Rattle.cx_flattening.specs.FedOnce.{FedOnce};
ghost use Rattle.cx_flattening.specs.Sampling.{AgreesAt};
ghost use Rattle.cx_flattening.specs.Ends.{NoneNamesDone};
ghost use Rattle.cx_flattening.specs.Forms.{HasForms};
ghost use Rattle.cx_flattening.specs.Told.{KeepsRuns};
ghost use Rattle.cx_flattening.specs.Lists.{IsIsland, IsStaticOf, island_events};
ghost use Rattle.cx_flattening.specs.Runs.{AnswerAs};
ghost use Rattle.cx_flattening.specs.Calling.{IsCallBeside, RunsAs};
ghost use Rattle.cx_flattening.specs.Asking.{TreeAsks};

/// A design without static components means what it means without them: it ends in the same turn with the same state, has the
/// same fault in the same turn, or needs more turns.
pub fn means_the_same_without()
    ensures { (d : PlainDesign) (words : List (List ℕ)) (n : ℕ)
        → IsDesign d → IsFlat d → whole_main d words n ≡ run_main d words n }
{}

/// So does one in which what statements and cells name is there, as in that of each text, whatever its size.
pub fn forms_mean_the_same_without()
    ensures { (d : PlainDesign) (words : List (List ℕ)) (n : ℕ) → HasForms d → IsFlat d →
        whole_main d words n ≡ run_main d words n }
{}

/// Each output of an instance is seen, wherever its flat component stands and whatever acts there, as in the instance.
pub fn outputs_are_seen_alike()
    ensures { (i : Instance) → AllFair i → OutputsSeen i }
{}

/// In a cycle the flat instance sees at each port of the caller, and at each port of each cell of a static child, what the tree
/// sees there; and the cycle ends as that of the tree: in a state of the same cells, or with the same fault at the port that stands
/// for the faulty one.
pub fn flat_cycles_are_those_of_the_tree()
    ensures seen { (i flat : Instance) (held : Held) (act more : Active) (deeds : List Deed) (s z : State) (p : PortRef)
        → IsBeside i flat act more deeds s z → IsKnown i p → seen flat held more z (own_of i p) ≡ seen i held act s p }
    ensures cells { (i flat : Instance) (held : Held) (act more : Active) (deeds : List Deed) (s z : State)
        → IsBeside i flat act more deeds s z → CellsSeen (seen flat held more z) i 0 held act deeds s }
    ensures cycle { (i flat : Instance) (held : Held) (act more : Active) (deeds : List Deed) (s z : State)
        → IsBeside i flat act more deeds s z → CycleAs i (whole_cycle i held act deeds s) (cycle flat held more z) }
{}

/// The list of an island of the flat component takes as many cycles as that of the tree, and in each cycle its groups and copies
/// act as what the tree does, by samples that agree, where no static child is fed twice at once.
pub fn flat_lists_are_those_of_the_tree()
    ensures length { (i : Instance) (form : PlainForm) → AllFair i → AllControlled i → IsStaticOf i form
        → form_length (flat_part i) (flat_form (flat_kids (cells_of i)) (part_of i) form) ≡
        form_lasts (part_of i) form }
    ensures acts { (i : Instance) (form : PlainForm) (h : History) (k : islands.History) (t : ℕ)
        → AllFair i → AllControlled i → IsStaticOf i form → AgreesAt h k i 0 []
        → ((n u : ℕ) → k (Input n) u ≡ h (spot [] (Input n)) u) → FedOnce i (deeds_in h t (island_events i form))
        → ActsAs i (entries (own_entries (deeds_in h t (island_events i form)))) (deeds_in h t (island_events i form))
        (entries (active_in k t (form_flat (flat_part i) (flat_form (flat_kids (cells_of i)) (part_of i) form) 0 []))) }
{}

/// A turn of a group of the flat instance is that of the group in the tree, and so is its run; a condition says the same. While
/// a group acts, static children rest.
pub fn flat_turns_are_those_of_the_tree()
    ensures turn { (i flat : Instance) (held : Held) (g : ℕ) (s z : State)
        → IsGroupBeside i flat (Some g) → Stands i 0 s z
        → TurnAs i (group_turn i held g s) (calls.group_turn flat held g z) }
    ensures group { (i flat : Instance) (held : Held) (g n : ℕ) (s z : State)
        → IsGroupBeside i flat (Some g) → Stands i 0 s z
        → AnswerAs i (turns_of (idle i) (group_turn i held g) s n)
        (turns_of (idle flat) (calls.group_turn flat held g) z n) }
    ensures test { (i flat : Instance) (held : Held) (p : PortRef) (with_group : Option ℕ) (s z : State)
        → IsGroupBeside i flat with_group → IsKnown i p → Stands i 0 s z
        → TestAs i (calls.test i held p with_group s) (calls.test flat held (own_of i p) with_group z) }
{}

/// An island of the flat instance is that of the tree: it ends in as many turns in a state of the same cells, has the same fault
/// in the same turn, at a sample or in a cycle, or needs more turns where that does.
pub fn flat_islands_are_those_of_the_tree()
    ensures { (i flat : Instance) (form : PlainForm) (held : Held) (s z : State) (n : ℕ)
        → IsIsland i flat form → Stands i 0 s z
        → AnswerAs i (whole_island i held form s n)
        (islands.island flat held (flat_form (flat_kids (cells_of i)) (part_of i) form) z n) }
{}

/// A call of a dynamic child in the flat instance is that in the tree, where the control of the child runs alike: its inputs are
/// seen alike, its state and its fault stand where the child stands, and the group captures alike in the turn after it.
pub fn flat_calls_are_those_of_the_tree()
    ensures { (i flat child : Instance) (held : Held) (g c : ℕ) (children others : Children) (s z : State) (n : ℕ)
        → IsCallBeside i flat g c child
        → RunsAs child c (kept_at (flat_kids (cells_of i)) c) children others → Stands i 0 s z
        → AnswerAs i (call i children held g c s n)
        (calls.call flat others held g (kept_at (flat_kids (cells_of i)) c) z n) }
{}

/// A flat design has no static components, and the external memories of the design.
pub fn flat_designs_are_flat()
    ensures flat { (d : PlainDesign) → IsFlat (flat_design d) }
    ensures rows { (d : PlainDesign) → IsDesign d → external_rows (flat_design d) ≡ external_rows d }
{}

/// The tree of the flat design is the flat instance of the tree of the design, and both start in the same state of all cells, with
/// the same words of the external memories.
pub fn flat_trees_are_flattened()
    ensures cells { (d : PlainDesign) → IsDesign d → IsFlattened (tree_of d) (tree_of (flat_design d)) }
    ensures starts { (d : PlainDesign) (words : List (List ℕ)) → IsDesign d
        → Stands (tree_of d) 0 (start (tree_of d) words) (start (tree_of (flat_design d)) words) }
{}

/// The flat design of an accepted design with plain names, in which nothing looks at the done of a static component's cell, is a
/// design: its numbers name its own parts, its names are apart, and no cell leads back to its component. Its size is at most its
/// weight, since each of its components stands in its tree.
pub fn flat_designs_are_designs()
    ensures parts { (d : PlainDesign)
        → IsDesign d → design_size (flat_design d) ≤ weight_below (tree_of (flat_design d)) }
    ensures design { (d : PlainDesign) → IsDesign d → IsAccepted d → NoneNamesDone d → ArePlainNames d
        → IsDesign (flat_design d) }
{}

/// The control of a tree runs in its flat instance as in the tree, with what is asked of each of its statements: it ends in as many
/// turns in a state of the same cells, has the fault in the same turn, or needs more turns where that does.
pub fn flat_runs_are_those_of_the_tree()
    ensures { (i flat : Instance) (held : Held) (s z : State) (n : ℕ)
        → TreeAsks i flat → Stands i 0 s z → IsSettled flat z
        → AnswerAs i (whole_control i held s n) (run_control flat held z n) }
{}

/// Every instance of the tree of an accepted design, in which nothing looks at the done of a static component's cell, is fair and
/// controlled: what flattening asks of its ports, its assignments, its control and its static invokes holds.
pub fn accepted_trees_are_fair()
    ensures fair { (d : PlainDesign) → IsDesign d → IsAccepted d → NoneNamesDone d → AllFair (tree_of d) }
    ensures controlled { (d : PlainDesign) → IsDesign d → IsAccepted d → NoneNamesDone d → AllControlled (tree_of d) }
{}

/// The run of main of an accepted design, in which nothing looks at the done of a static component's cell, is that of its flat
/// design: it ends in as many turns in a state of the same cells, has the fault in the same turn at the port that stands for the
/// faulty one, or needs more turns where that does.
pub fn accepted_runs_are_those_of_the_flat_design()
    ensures { (d : PlainDesign) (words : List (List ℕ)) (n : ℕ) → IsDesign d → IsAccepted d → NoneNamesDone d
        → AnswerAs (tree_of d) (whole_main d words n) (run_main (flat_design d) words n) }
{}

/// The flat design of an accepted design with plain names, in which nothing looks at the done of a static component's cell, tells
/// of a run what the design tells: its turns with the words of the external memories, or the kind, the name and the turn of its
/// fault; and it has the external memories of the design.
pub fn accepted_designs_keep_their_runs()
    ensures { (d : PlainDesign) → IsDesign d → IsAccepted d → NoneNamesDone d → ArePlainNames d → KeepsRuns d }
{}

/// The flat component has the cells that are counted with static components written out, and over the tree of the flat design there
/// are as many instances, levels and memory words as are counted in that of the design.
pub fn flat_sizes_are_counted()
    ensures cells { (i : Instance) → length (flat_part i).cells ≡ counted_cells i }
    ensures instances { (d : PlainDesign)
        → IsDesign d → instances_below (tree_of (flat_design d)) ≡ counted_instances (tree_of d) }
    ensures depth { (d : PlainDesign) → IsDesign d → depth_below (tree_of (flat_design d)) ≡ counted_depth (tree_of d) }
    ensures words { (d : PlainDesign) → IsDesign d → words_below (tree_of (flat_design d)) ≡ words_below (tree_of d) }
{}

/// The flat design of an accepted design exceeds no limit on cells, instances, levels, memory words and rounds of a repeat; nor on
/// groups, where nothing looks at the done of a static component's cell.
pub fn flat_designs_keep_limits()
    ensures cells { (d : PlainDesign) (at : Spot) (place : Place) (name : List ℕ)
        → IsDesign d → IsAccepted d → BreaksCells (flat_design d) at place name → ⊥ }
    ensures instances { (d : PlainDesign) (at : Spot) (place : Place) (name : List ℕ)
        → IsDesign d → IsAccepted d → BreaksInstances (flat_design d) at place name → ⊥ }
    ensures depth { (d : PlainDesign) (at : Spot) (place : Place) (name : List ℕ)
        → IsDesign d → IsAccepted d → BreaksDepth (flat_design d) at place name → ⊥ }
    ensures words { (d : PlainDesign) (at : Spot) (place : Place) (name : List ℕ)
        → IsDesign d → IsAccepted d → BreaksWords (flat_design d) at place name → ⊥ }
    ensures groups { (d : PlainDesign) (at : Spot) (place : Place) (name : List ℕ)
        → IsDesign d → IsAccepted d → NoneNamesDone d
        → BreaksGroups (flat_design d) at place name → ⊥ }
    ensures repeats { (d : PlainDesign) (at : Spot) (place : Place) (name : List ℕ) → IsDesign d → IsAccepted d
        → OnStatement (λ i v told called. is_too_many (count_in v.form) ≡ true) (flat_design d) at place name → ⊥ }
{}

/// The flat design of an accepted design, in which nothing looks at the done of a static component's cell, weighs what is counted of the
/// design with its static components written out, and is no larger than what is counted: it exceeds no limit.
pub fn flat_designs_keep_weights()
    ensures counted { (d : PlainDesign) → IsDesign d → IsAccepted d → NoneNamesDone d →
        weight_of (flat_design d) ≡ counted_weight (tree_of d) }
    ensures weight { (d : PlainDesign) (at : Spot) (place : Place) (name : List ℕ)
        → IsDesign d → IsAccepted d → NoneNamesDone d
        → BreaksWeight (flat_design d) at place name → ⊥ }
    ensures statements { (d : PlainDesign) (at : Spot) (place : Place) (name : List ℕ)
        → IsDesign d → IsAccepted d → NoneNamesDone d
        → OnStatement BreaksStatement (flat_design d) at place name → ⊥ }
    ensures size { (d : PlainDesign) → IsDesign d → IsAccepted d → NoneNamesDone d →
        design_size (flat_design d) ≤ counted_design_size d }
    ensures limits { (d : PlainDesign) → IsDesign d → IsAccepted d → NoneNamesDone d →
        flat_rules.KeepsStage 7 (flat_design d) }
{}

/// Each component of the flat design is the flat one of a component that the flat main reaches; and the flat design of an accepted
/// design, in which nothing looks at the done of a static component's cell, keeps stage 3, of widths, literals, targets and sources,
/// and stage 5, of combinational cycles; of stage 4 it keeps the rules on ranges in guards, on what is enabled continuously, on the
/// done of plain groups, on what comb groups drive, on the shape of static groups, on what stands in static control, and on its
/// lengths. Any flat design keeps the rules on static components and their invokes.
pub fn flat_designs_keep_rules()
    ensures components { (d : PlainDesign) (k : ℕ) → IsDesign d → is_reached d k ≡ true
        → IsFlattened (component_of d k) (component_of (flat_design d) (reached_below d k)) }
    ensures widths { (d : PlainDesign) → IsDesign d → IsAccepted d → NoneNamesDone d → KeepsStage 3 (flat_design d) }
    ensures circles { (d : PlainDesign) → IsDesign d → IsAccepted d → NoneNamesDone d → KeepsStage 5 (flat_design d) }
    ensures guards { (d : PlainDesign) (at : Spot) (place : Place) (name : List ℕ) → IsDesign d → IsAccepted d
        → OnAssign BreaksStaticGuard (flat_design d) at place name → ⊥ }
    ensures always { (d : PlainDesign) (at : Spot) (place : Place) (name : List ℕ)
        → IsDesign d → IsAccepted d → NoneNamesDone d
        → OnAssign BreaksAlwaysEnable (flat_design d) at place name → ⊥ }
    ensures dones { (d : PlainDesign) (at : Spot) (place : Place) (name : List ℕ)
        → IsDesign d → IsAccepted d → NoneNamesDone d
        → OnGroup BreaksNoDone (flat_design d) at place name → ⊥ }
    ensures combs { (d : PlainDesign) (at : Spot) (place : Place) (name : List ℕ)
        → IsDesign d → IsAccepted d → NoneNamesDone d
        → OnAssign BreaksCombEnable (flat_design d) at place name → ⊥ }
    ensures shapes { (d : PlainDesign) (at : Spot) (place : Place) (name : List ℕ) → IsDesign d → IsAccepted d
        → OnGroup GroupBreaksStaticShape (flat_design d) at place name → ⊥ }
    ensures stands { (d : PlainDesign) (at : Spot) (place : Place) (name : List ℕ)
        → IsDesign d → IsAccepted d → NoneNamesDone d
        → OnStatement BreaksStaticControl (flat_design d) at place name → ⊥ }
    ensures lengths { (d : PlainDesign) (at : Spot) (place : Place) (name : List ℕ)
        → IsDesign d → IsAccepted d → NoneNamesDone d
        → OnStatement BreaksLength (flat_design d) at place name → ⊥ }
    ensures parts { (d : PlainDesign) (at : Spot) (place : Place) (name : List ℕ)
        → OnStatement BreaksInvokeLength (flat_design d) at place name
        ⊎ BreaksPartLength (flat_design d) at place name → ⊥ }
    ensures invokes { (d : PlainDesign) (at : Spot) (place : Place) (name : List ℕ)
        → OnAssign BreaksStaticCell (flat_design d) at place name
        ⊎ OnStatement BreaksInvoke (flat_design d) at place name → ⊥ }
    ensures kept { (d : PlainDesign) (at : Spot) (place : Place) (name : List ℕ)
        → OnAssign BreaksKept (flat_design d) at place name → ⊥ }
{}

/// The flat design of an accepted design, in which nothing looks at the done of a static component's cell, keeps the rule on calls: a plain
/// group alone drives ports of a component cell, of one cell, with its go, its done and the enables of its registers as the rule says.
pub fn flat_designs_keep_calls()
    ensures calls { (d : PlainDesign) (at : Spot) (place : Place) (name : List ℕ)
        → IsDesign d → IsAccepted d → NoneNamesDone d
        → OnAssign BreaksCallShape (flat_design d) at place name → ⊥ }
    ensures call_groups { (d : PlainDesign) (at : Spot) (place : Place) (name : List ℕ)
        → IsDesign d → IsAccepted d → NoneNamesDone d
        → OnGroup GroupBreaksCallShape (flat_design d) at place name → ⊥ }
{}

/// State at rest: the flat design of an accepted design, in which nothing looks at the done of a static component's cell, keeps the rule
/// on done assignments, that on the conditions of static ifs, and that on what the outputs of a component rest on.
pub fn flat_designs_rest()
    ensures done_states { (d : PlainDesign) (at : Spot) (place : Place) (name : List ℕ)
        → IsDesign d → IsAccepted d → NoneNamesDone d
        → OnAssign BreaksDoneNotState (flat_design d) at place name → ⊥ }
    ensures tests { (d : PlainDesign) (at : Spot) (place : Place) (name : List ℕ)
        → IsDesign d → IsAccepted d → NoneNamesDone d
        → OnStatement BreaksStaticTest (flat_design d) at place name → ⊥ }
    ensures outputs { (d : PlainDesign) (at : Spot) (place : Place) (name : List ℕ)
        → IsDesign d → IsAccepted d → NoneNamesDone d
        → OnAssign BreaksOutputNotState (flat_design d) at place name → ⊥ }
{}

/// The flat design of an accepted design, in which nothing looks at the done of a static component's cell, keeps stage 6, of races:
/// of the arms of each par and static par none reads what another drives, and none enables a group that another enables.
pub fn flat_designs_are_without_races()
    ensures races { (d : PlainDesign) → IsDesign d → IsAccepted d → NoneNamesDone d → KeepsStage 6 (flat_design d) }
{}

/// The flat design of an accepted design, in which nothing looks at the done of a static component's cell, is accepted: it breaks no rule
/// of any stage, neither as the rules are nor as they come to in a design without static components.
pub fn flat_designs_are_accepted()
    ensures flat { (d : PlainDesign) → IsDesign d → IsAccepted d → NoneNamesDone d →
        flat_rules.IsAccepted (flat_design d) }
    ensures whole { (d : PlainDesign) → IsDesign d → IsAccepted d → NoneNamesDone d → IsAccepted (flat_design d) }
{}
