//! Laws of whole lists of commands. They follow from the definitions that `Session::apply` meets one command at a time; nothing here runs.

ghost use Rattle.std.specs.Prelude.{◌≡◌, ℕ, ◌<◌, ◌≤◌, Bool, true, false, List, [], ◌∷◌, ◌++◌, map, length, remove, Some, None, option_map};
ghost use Rattle.dom_model.specs.Forests.Forest.{HasNode, root_of};
ghost use Rattle.dom_model.specs.Worlds.World.{Range, World, first_world};
ghost use Rattle.dom_model.specs.Commands.Command.{Command, RangeText};
ghost use Rattle.dom_model.specs.Commands.Reply.{Number, Units, Done, is_refusal};
ghost use Rattle.dom_model.specs.Commands.Guards.{Bounds};
ghost use Rattle.dom_model.specs.Commands.Answer.{answer};
ghost use Rattle.dom_model.specs.Commands.AnswerTraversal.{iterator_at, walker_at};
ghost use Rattle.dom_model.specs.MutationObservers.Records.{has_observer};
ghost use Rattle.dom_model.specs.RangesAndContents.Ranges.{end_of, range_at};
ghost use Rattle.dom_model.specs.RangesAndContents.Contents.{range_text};
ghost use Rattle.dom_model.specs.RangesAndContents.StaticRanges.{static_at};
ghost use Rattle.dom_model.specs.TokenText.Gaps.{text_among};
ghost use Rattle.dom_model.specs.TokenText.Between.{text_of_range};
ghost use Rattle.dom_model.specs.TokenText.Tokens.{texts_of, unmarked, tokens_among, gap_among};
ghost use Rattle.dom_model.specs.TokenText.CommandEdits.{world_past, texts_after, ranges_along, marks_along, commands_among};
ghost use Rattle.dom_model.specs.Commands.Table.{Row};
ghost use Rattle.dom_model.specs.Commands.Line.{command_within};
ghost use Rattle.dom_model.specs.Commands.Output.{whole_lines, last_piece, line_step, world_after, replies_from, due};
ghost use Rattle.dom_model.specs.Commands.Counts.{counts_of, asked, plus, of_each, AreAtMost};
ghost use Rattle.dom_model.specs.Commands.NewNumbers.{Numbered, made_by, IsNext};
ghost use Rattle.dom_model.specs.Soundness.Sound.{IsSound};
ghost use Rattle.dom_model.specs.Erasure.DiscardsAlike.{replies_to_discards};
ghost use Rattle.dom_model.specs.Erasure.Erasing.{replies_to, makes_no_discard, without_observers, replies_without_observers, makes_no_edit_by_range, without_watchers, replies_without_watchers};

/// States that observers do not affect one another. Without the commands of some of them, their turns and their release, every other
/// reply stays. In the replies to `notify`, to `pending` and to its taking, the parts of the others stay. An observer can affect
/// `discard`: the list has none, or each is answered alike in both lists (DOM Standard, "Mutation observers").
pub fn observers_apart()
    ensures without_discard { (erased : ℕ → Bool) → (b : Bounds) → (cs : List Command) →
        makes_no_discard cs ≡ true →
        replies_to b first_world (without_observers erased cs)
        ≡ replies_without_observers erased cs (replies_to b first_world cs) }
    ensures with_discard { (erased : ℕ → Bool) → (b : Bounds) → (cs : List Command) →
        replies_to_discards (without_observers erased cs)
        (replies_to b first_world (without_observers erased cs))
        ≡ replies_to_discards cs (replies_to b first_world cs) →
        replies_to b first_world (without_observers erased cs)
        ≡ replies_without_observers erased cs (replies_to b first_world cs) }
{}

/// States that watchers do not affect the tree. Without the commands of live ranges, static ranges, iterators and walkers, if none of
/// them is an edit by a range, every other reply stays. A watcher can affect `discard`: the list has none, or each is answered alike in
/// both lists (DOM Standard, "Ranges", "Traversal").
pub fn watchers_apart()
    ensures without_discard { (b : Bounds) → (cs : List Command) →
        makes_no_edit_by_range cs ≡ true → makes_no_discard cs ≡ true →
        replies_to b first_world (without_watchers cs)
        ≡ replies_without_watchers cs (replies_to b first_world cs) }
    ensures with_discard { (b : Bounds) → (cs : List Command) → makes_no_edit_by_range cs ≡ true →
        replies_to_discards (without_watchers cs) (replies_to b first_world (without_watchers cs))
        ≡ replies_to_discards cs (replies_to b first_world cs) →
        replies_to b first_world (without_watchers cs)
        ≡ replies_without_watchers cs (replies_to b first_world cs) }
{}

/// States that lines leave the world that their commands leave. So a law about all commands holds for all lines (ours).
pub fn lines_are_their_commands()
    ensures { (table : List Row) → (b : Bounds) → (w : World) → (lines : List (List ℕ)) →
        world_after table b w lines ≡ world_past b w
        (commands_among (map (command_within table b.line) lines)) }
{}

/// States that every world that commands reach is sound. The forest is one; both ends of each live range stand in one tree, within their
/// nodes' lengths, and the start not after the end. Each iterator's reference is inside its root. The nodes of walkers and registrations
/// exist, and so do both nodes of each static range, whatever its offsets (DOM Standard, "Boundary points", "Live ranges",
/// "Interface StaticRange", "Traversal").
pub fn worlds_stay_sound()
    ensures { (b : Bounds) → (cs : List Command) → IsSound (world_past b first_world cs) }
{}

/// States that a refused command leaves the world unchanged, whatever the world (ours; the standard's exceptions come before the steps that
/// change anything).
pub fn refused_commands_leave()
    ensures { (b : Bounds) → (w : World) → (c : Command) → is_refusal (answer b w c).reply ≡ true →
        (answer b w c).world ≡ w }
{}

/// States that a refused command can be left out of a list of commands, and every other reply stays. So can a line that is refused, by
/// its form or by its command: the input loses the line with its newline, the output its reply (ours).
pub fn refused_commands_can_go()
    ensures commands { (b : Bounds) → (cs : List Command) → (c : Command) → (ds : List Command) →
        is_refusal (answer b (world_past b first_world cs) c).reply ≡ true →
        replies_to b first_world (cs ++ ds) ≡ remove (replies_to b first_world (cs ++ c ∷ ds))
        (length cs) }
    ensures lines { (table : List Row) → (b : Bounds) → (before : List (List ℕ)) → (line : List ℕ) →
        (after : List (List ℕ)) →
        is_refusal (line_step table b (world_after table b first_world before) line).reply ≡ true →
        replies_from table b first_world (before ++ after)
        ≡ remove (replies_from table b first_world (before ++ line ∷ after)) (length before) }
    ensures bytes { (table : List Row) → (b : Bounds) → (front : List ℕ) → (line : List ℕ) →
        (rest : List ℕ) → last_piece front ≡ [] → whole_lines line ≡ [] →
        is_refusal (line_step table b (world_after table b first_world (whole_lines front))
        line).reply ≡ true →
        due table b (front ++ rest) true ≡ remove (due table b (front ++ (line ++ 10 ∷ rest)) true)
        (length (whole_lines front)) }
{}

/// States that no command gives out more numbers than it asks for. After any commands no kind of object has more numbers than the limit
/// (ours; the first world has a Document, whose number the limit must allow).
pub fn numbers_stay_within()
    ensures as_asked { (b : Bounds) → (cs : List Command) → (c : Command) →
        AreAtMost (counts_of (answer b (world_past b first_world cs) c).world)
        (plus (counts_of (world_past b first_world cs)) (asked (world_past b first_world cs) c)) }
    ensures limited { (b : Bounds) → (cs : List Command) → 1 ≤ b.numbers →
        AreAtMost (counts_of (world_past b first_world cs)) (of_each b.numbers) }
{}

/// States that no number is taken back, whatever the world: no command makes the count of a kind smaller (ours).
pub fn numbers_only_rise()
    ensures { (b : Bounds) → (w : World) → (cs : List Command) →
        AreAtMost (counts_of w) (counts_of (world_past b w cs)) }
{}

/// States that freed objects stay freed, whatever the world and the commands. A node whose number was given out and that is gone never
/// returns. So a new node has a number that was not given out before. A live range, an iterator, a walker, a static range or an observer
/// that was released stays released (ours; a node is gone once its tree is discarded).
pub fn what_is_gone_stays_gone()
    ensures nodes { (b : Bounds) → (w : World) → (cs : List Command) → (n : ℕ) → n < w.made →
        (HasNode w.forest n → ⊥) →
        HasNode (world_past b w cs).forest n → ⊥ }
    ensures new_nodes { (b : Bounds) → (w : World) → (cs : List Command) → (n : ℕ) →
        (HasNode w.forest n → ⊥) →
        HasNode (world_past b w cs).forest n → w.made ≤ n }
    ensures ranges { (b : Bounds) → (w : World) → (cs : List Command) → (r : ℕ) →
        r < length w.ranges → range_at w r ≡ None →
        range_at (world_past b w cs) r ≡ None }
    ensures iterators { (b : Bounds) → (w : World) → (cs : List Command) → (i : ℕ) →
        i < length w.iterators → iterator_at i w ≡ None →
        iterator_at i (world_past b w cs) ≡ None }
    ensures walkers { (b : Bounds) → (w : World) → (cs : List Command) → (k : ℕ) →
        k < length w.walkers → walker_at k w ≡ None →
        walker_at k (world_past b w cs) ≡ None }
    ensures static_ranges { (b : Bounds) → (w : World) → (cs : List Command) → (u : ℕ) →
        u < length w.static_ranges → static_at w u ≡ None →
        static_at (world_past b w cs) u ≡ None }
    ensures observers { (b : Bounds) → (w : World) → (cs : List Command) → (o : ℕ) →
        o < length w.observing.places →
        has_observer w.observing o ≡ false → has_observer (world_past b w cs).observing o ≡ false }
{}

/// States that no number is given out twice, whatever the world. A new number is the next of its kind: it equals the count of numbers
/// given out before. So if two commands of one list each reply with a new number of one kind, the later number is greater (ours).
pub fn new_numbers_differ()
    ensures next { (b : Bounds) → (w : World) → (c : Command) → (kind : Numbered) → (n : ℕ) →
        made_by c ≡ Some kind →
        (answer b w c).reply ≡ Done (Number n) → IsNext kind n w (answer b w c).world }
    ensures later { (b : Bounds) → (w : World) → (c : Command) → (between : List Command) →
        (d : Command) → (kind : Numbered) → (n : ℕ) → (m : ℕ) →
        made_by c ≡ Some kind → made_by d ≡ Some kind →
        (answer b w c).reply ≡ Done (Number n) → (answer b (world_past b w (c ∷ between)) d).reply
        ≡ Done (Number m) → n < m }
{}

/// States that each end of each live range is at its marker. In the token texts of a world that commands reach, each end's gap has a
/// marker. Then each command of a list makes its edits on the texts, one command after another, and nothing is read from a world again.
/// Afterwards the marker of each end of each live range is in that end's gap. A range that was released or never made has no marker.
/// Without markers each node's tokens, from its open to its close, are those of the world. This holds after each command of the list (DOM Standard, "Live ranges",
/// in the words of texts).
pub fn ends_stay_with_their_markers()
    ensures gaps { (b : Bounds) → (before : List Command) → (cs : List Command) → (r : ℕ) →
        (side : Bool) →
        gap_among r side (texts_after b (world_past b first_world before)
        (texts_of (world_past b first_world before)) cs)
        ≡ option_map (end_of side) (range_at (world_past b (world_past b first_world before) cs)
        r) }
    ensures tokens { (b : Bounds) → (before : List Command) → (cs : List Command) → (n : ℕ) →
        unmarked (tokens_among n (texts_after b (world_past b first_world before)
        (texts_of (world_past b first_world before)) cs))
        ≡ unmarked (tokens_among n (texts_of (world_past b (world_past b first_world before) cs))) }
    ensures along { (b : Bounds) → (before : List Command) → (cs : List Command) →
        marks_along b (world_past b first_world before) (texts_of (world_past b first_world before))
        cs ≡ ranges_along b (world_past b first_world before) cs }
{}

/// States that the text of a live range is the units of Texts between its two markers, in the token text of its root. It holds in
/// every sound world, and so in every world that commands reach, where it is the reply for the range's text (DOM Standard,
/// "Interface Range", its stringification behavior, in the words of texts).
pub fn range_text_is_what_lies_between()
    ensures text { (w : World) → (r : ℕ) → (root : ℕ) → (range : Range) → IsSound w →
        range_at w r ≡ Some range → root_of w.forest range.start.node ≡ Some root →
        range_text w range ≡ text_of_range w r (text_among root (texts_of w)) }
    ensures answered { (b : Bounds) → (cs : List Command) → (r : ℕ) → (root : ℕ) → (range : Range) →
        range_at (world_past b first_world cs) r ≡ Some range →
        root_of (world_past b first_world cs).forest range.start.node ≡ Some root →
        (answer b (world_past b first_world cs) (RangeText r)).reply
        ≡ Done (Units (text_of_range (world_past b first_world cs) r
        (text_among root (texts_of (world_past b first_world cs))))) }
{}
