//! What holds of all operations. The functions compute nothing: their contracts are the laws.

ghost use Rattle.std.specs.Prelude.{◌≡◌, ◌++◌, ℕ, ℤ, pos, None, Some, Option, List, is_some, IsFalse, IsTrue};
ghost use Rattle.chi_value.specs.declared.format.Kind.{Kind};
ghost use Rattle.chi_value.specs.declared.value.Value.{Value};
ghost use Rattle.chi_ops.specs.Along.{read_along};
ghost use Rattle.chi_ops.specs.Conditions.{may_build, may_del, may_enumerate, may_has, may_index, may_insert_at, may_join, may_keys, may_lookup, may_meet, may_minus, may_minus_keys, may_pop, may_size, may_slice, may_sub, may_union, may_values};
ghost use Rattle.chi_ops.specs.Operations.{build, has, keys_of, lookup, meet, minus, minus_keys, pop, size, sub, union, values_of};
ghost use Rattle.chi_ops.specs.Outcome.{gives, is_wrong};
ghost use Rattle.chi_ops.specs.Sequences.{del, enumerate, index, insert_at, join, range, slice};
ghost use Rattle.chi_ops.specs.Slices.{slice_of};
ghost use Rattle.chi_ops.specs.Store.{Step, may_put, put};

/// What was stored along a path is what is read along it.
pub fn what_is_stored_is_read()
    ensures { (path : List Step) (x v changed : Value) → put path x v ≡ gives changed → read_along path changed ≡ Some x }
{}

/// Two slices at one bound, joined, give the list, and the string.
pub fn slices_at_one_bound_join()
    ensures lists { (items : List Value) (bound : ℤ) → slice_of items None (Some bound) (pos 1) ++ slice_of items (Some bound) None (pos 1) ≡ items }
    ensures strings { (bytes : List ℕ) (bound : ℤ) → slice_of bytes None (Some bound) (pos 1) ++ slice_of bytes (Some bound) None (pos 1) ≡ bytes }
{}

/// Where its condition holds, an operation on one list, string, set or dictionary has a value or a named fault.
pub fn operations_on_one_have_outcomes()
    ensures index { (v : Value) (i : ℤ) → IsTrue (may_index v i) → IsFalse (is_wrong (index v i)) }
    ensures slice { (v : Value) (first last by : Option ℤ) → IsTrue (may_slice v first last by) → IsFalse (is_wrong (slice v first last by)) }
    ensures lookup { (d key : Value) → IsTrue (may_lookup d key) → IsFalse (is_wrong (lookup d key)) }
    ensures insert_at { (v : Value) (i : ℕ) (x : Value) → IsTrue (may_insert_at v i x) → IsFalse (is_wrong (insert_at v i x)) }
    ensures del { (v : Value) (i : ℤ) → IsTrue (may_del v i) → IsFalse (is_wrong (del v i)) }
    ensures pop { (v : Value) → IsTrue (may_pop v) → IsFalse (is_wrong (pop v)) }
    ensures enumerate { (v : Value) → IsTrue (may_enumerate v) → IsFalse (is_wrong (enumerate v)) }
    ensures keys { (d : Value) → IsTrue (may_keys d) → IsFalse (is_wrong (keys_of d)) }
    ensures values { (d : Value) → IsTrue (may_values d) → IsFalse (is_wrong (values_of d)) }
    ensures size { (v : Value) → IsTrue (may_size v) → IsTrue (is_some (size v)) }
    ensures has { (v x : Value) → IsTrue (may_has v x) → IsTrue (is_some (has v x)) }
{}

/// So has one on two of them, a range, a literal, and a store along a path.
pub fn operations_on_more_have_outcomes()
    ensures join { (a b : Value) → IsTrue (may_join a b) → IsFalse (is_wrong (join a b)) }
    ensures union { (a b : Value) → IsTrue (may_union a b) → IsFalse (is_wrong (union a b)) }
    ensures meet { (a b : Value) → IsTrue (may_meet a b) → IsFalse (is_wrong (meet a b)) }
    ensures minus { (a b : Value) → IsTrue (may_minus a b) → IsFalse (is_wrong (minus a b)) }
    ensures minus_keys { (d removed : Value) → IsTrue (may_minus_keys d removed) → IsFalse (is_wrong (minus_keys d removed)) }
    ensures sub { (a b : Value) → IsTrue (may_sub a b) → IsTrue (is_some (sub a b)) }
    ensures range { (first last by : ℤ) → IsFalse (is_wrong (range first last by)) }
    ensures build { (kind : Kind) (parts : List Value) → IsTrue (may_build kind parts) → IsFalse (is_wrong (build kind parts)) }
    ensures put { (path : List Step) (x v : Value) → IsTrue (may_put path x v) → IsFalse (is_wrong (put path x v)) }
{}
