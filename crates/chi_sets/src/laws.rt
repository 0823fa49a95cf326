//! What holds of all sets and dictionaries. The functions compute nothing: their contracts are the laws.

ghost use Rattle.std.specs.Prelude.{◌≡◌, Some, ◌&&◌, ◌||◌, not, Decides, List, reverse, Contains, IsFalse, IsTrue};
ghost use Rattle.std.specs.Option.{option_or};
ghost use Rattle.chi_value.specs.declared.value.Value.{Value};
ghost use Rattle.chi_value.specs.Plain.{is_plain};
ghost use Rattle.chi_sets.specs.Dictionaries.{are_entries, ascending_by_key, dictionary_of, dictionary_union, entry, has, is_entry, keys, minus_keys, value_at, with_entry};
ghost use Rattle.chi_sets.specs.Sets.{among, is_ascending, meet, minus, set_of, ties, union};

/// The set of some elements has them and no others. Only the last law asks that a value is plain:
/// there being among elements means being one of them.
#[tactic(auto, using(crate::proofs::SetLaws::set_of_ascends, crate::proofs::SetLaws::set_of_members, crate::proofs::SetLaws::set_of_set, crate::proofs::SetLaws::among_means))]
pub fn sets_have_their_members()
    ensures ascending { (xs : List Value) → IsTrue (is_ascending (set_of xs)) }
    ensures members { (xs : List Value) (x : Value) → among (set_of xs) x ≡ among xs x }
    ensures already_a_set { (xs : List Value) → IsTrue (is_ascending xs) → set_of xs ≡ xs }
    ensures membership { (xs : List Value) (x : Value) → IsTrue (is_plain x) → Decides (among xs x) (Contains xs x) }
{}

/// Unions, intersections and differences are sets of the members that one expects.
#[tactic(auto, using(crate::proofs::SetLaws::set_of_ascends, crate::proofs::SetLaws::union_members, crate::proofs::SetLaws::meet_ascends, crate::proofs::SetLaws::meet_members, crate::proofs::SetLaws::minus_ascends, crate::proofs::SetLaws::minus_members))]
pub fn sets_are_combined()
    ensures union { (a b : List Value) → IsTrue (is_ascending (union a b)) }
    ensures in_union { (a b : List Value) (x : Value) → among (union a b) x ≡ (among a x || among b x) }
    ensures meet { (a b : List Value) → IsTrue (is_ascending a) → IsTrue (is_ascending (meet a b)) }
    ensures in_meet { (a b : List Value) (x : Value) → among (meet a b) x ≡ (among a x && among b x) }
    ensures minus { (a b : List Value) → IsTrue (is_ascending a) → IsTrue (is_ascending (minus a b)) }
    ensures in_minus { (a b : List Value) (x : Value) → among (minus a b) x ≡ (among a x && not (among b x)) }
{}

/// The dictionary of some entries has their keys, each with what the last entry of that key gave.
#[tactic(auto, using(crate::proofs::DictionaryLaws::dictionary_of_ascends, crate::proofs::DictionaryLaws::dictionary_of_entries, crate::proofs::DictionaryLaws::dictionary_of_values, crate::proofs::DictionaryLaws::dictionary_of_dictionary, crate::proofs::DictionaryLaws::keys_ascend))]
pub fn dictionaries_have_their_values()
    ensures ascending { (es : List Value) → IsTrue (ascending_by_key (dictionary_of es)) }
    ensures entries { (es : List Value) → IsTrue (are_entries es) → IsTrue (are_entries (dictionary_of es)) }
    ensures last_values { (es : List Value) (key : Value) → value_at (dictionary_of es) key ≡ value_at (reverse es) key }
    ensures already_a_dictionary { (es : List Value) → IsTrue (ascending_by_key es) → dictionary_of es ≡ es }
    ensures keys { (es : List Value) → IsTrue (are_entries es) → is_ascending (keys es) ≡ ascending_by_key es }
{}

/// With an entry, its key has its value, and other keys have what they had.
#[tactic(auto, using(crate::proofs::DictionaryLaws::with_entry_ascends, crate::proofs::DictionaryLaws::with_entry_value, crate::proofs::DictionaryLaws::with_entry_others))]
pub fn entries_are_set()
    ensures ascending { (es : List Value) (e : Value) → IsTrue (ascending_by_key es) → IsTrue (ascending_by_key (with_entry es e)) }
    ensures its_key { (es : List Value) (key x : Value) → value_at (with_entry es (entry key x)) key ≡ Some x }
    ensures other_keys { (es : List Value) (key x other : Value) → IsFalse (ties other key) → value_at (with_entry es (entry key x)) other ≡ value_at es other }
{}

/// In a union each key has what the right side has for it, and else what the left side has.
#[tactic(auto, using(crate::proofs::DictionaryLaws::dictionary_of_ascends, crate::proofs::DictionaryLaws::union_keys, crate::proofs::DictionaryLaws::union_values, crate::proofs::DictionaryLaws::minus_keys_ascends, crate::proofs::DictionaryLaws::minus_keys_keys))]
pub fn dictionaries_are_combined()
    ensures union { (a b : List Value) → IsTrue (ascending_by_key (dictionary_union a b)) }
    ensures in_union { (a b : List Value) (key : Value) → has (dictionary_union a b) key ≡ (has a key || has b key) }
    ensures of_union { (a b : List Value) (key : Value) → IsTrue (ascending_by_key a) → IsTrue (ascending_by_key b) → value_at (dictionary_union a b) key ≡ option_or (value_at b key) (value_at a key) }
    ensures rest { (es removed : List Value) → IsTrue (ascending_by_key es) → IsTrue (ascending_by_key (minus_keys es removed)) }
    ensures in_rest { (es removed : List Value) (key : Value) → has (minus_keys es removed) key ≡ (has es key && not (among removed key)) }
{}

/// Entries are all that comes of adding an entry to entries, and of two dictionaries of entries.
#[tactic(auto, using(crate::proofs::DictionaryLaws::with_entry_entries, crate::proofs::DictionaryLaws::union_entries))]
pub fn entries_stay_entries()
    ensures with_entry { (es : List Value) (e : Value) → IsTrue (are_entries es) → IsTrue (is_entry e) → IsTrue (are_entries (with_entry es e)) }
    ensures union { (a b : List Value) → IsTrue (are_entries a) → IsTrue (are_entries b) → IsTrue (are_entries (dictionary_union a b)) }
{}
