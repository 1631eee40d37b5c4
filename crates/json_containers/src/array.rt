// The calls of arrays.
ghost use Rattle.std.specs.Prelude.{◌≡◌, ◌+◌, ◌-◌, ◌≤◌, ◌<◌, ◌↔◌, List, [], ◌∷◌, ◌++◌, length, map};
ghost use Rattle.std.specs.Prelude.{IfOk, OnOk, OnErr, IsOk, IsNone, IsTrue, Some};
ghost use Rattle.std.specs.Prelude.{take, drop, replicate, slice_get, slice_range, option_map};
ghost use Rattle.std.specs.Option.{option_to_list};
ghost use Rattle.std.specs.Vec.{vec_len, vec_capacity};
ghost use Rattle.std.specs.Borrow.{LendsSoOk, sem};
ghost use Rattle.std.specs.Fn.{CalledAt, CalledAtMut};
ghost use Rattle.std.specs.List.{insert, remove, remove_range, swap_remove, AppendsResults};
ghost use Rattle.std.specs.List.Retain.{IsFiltered, RetainsInTurn};
ghost use Rattle.json_io.specs.Errors.{OnlyNoMemory};
ghost use Rattle.json_value.specs.Denotes.{tree_of, list_in};
ghost use Rattle.json_value.specs.Places.{value_origin};
ghost use Rattle.json_value.specs.Room.{spare_in};
ghost use Rattle.json_value.specs.Positions.{IsPlace};
ghost use Rattle.json_value.specs.Written.{FirstElements};
ghost use Rattle.json_value.specs.declared.container.Container.{Container};
ghost use Rattle.json_value.specs.declared.value.Value.{Value};
ghost use Rattle.json_containers.specs.IntoIter.{values_left, values_shown, slice_row};
ghost use Rattle.json_containers.specs.Changed.{ArrayChanged, ArrayBecame, ArrayStays, ArrayStaysOnErr};
ghost use Rattle.json_containers.specs.Changed.{own_elements, RetainsWhereTrue};
ghost use Rattle.json_containers.specs.Changed.{TakesRoomForOne, KeepsRoom, AppendsCopies};
ghost use Rattle.json_containers.specs.Slices.{written_over};

use crate::into_iter::IntoIter;
use crate::slices::{elements_of, slice_of};
use json_io::Result;
use json_value::{Array, Value};
use std::alloc::Global;

// Returns copies of the values.
fn copy_all(alloc: Global, items: &[Value]) -> Result<Vec<Value>>
    ensures list { IfOk result (λ v. map tree_of v.items ≡ map tree_of items.now) }
    ensures origins { IfOk result (λ v. map value_origin v.items ≡ map value_origin items.now) }
    ensures only { OnlyNoMemory result }
{
    let mut copies = Vec::with_capacity(alloc, items.len())?;
    for item in items {
        copies.push(item.clone(alloc)?)?;
    }
    Ok(copies)
}

// Returns `count` copies of the value.
fn copies_of(alloc: Global, value: &Value, count: usize) -> Result<Vec<Value>>
    ensures list { IfOk result (λ v. map tree_of v.items ≡ replicate count (tree_of value.now)) }
    ensures origins { IfOk result (λ v. map value_origin v.items
        ≡ replicate count (value_origin value.now)) }
    ensures only { OnlyNoMemory result }
{
    let mut copies = Vec::with_capacity(alloc, count)?;
    for _copy in 0..count {
        copies.push(value.clone(alloc)?)?;
    }
    Ok(copies)
}

// Appends the elements of `rest` to `list`, which has room for them.
fn put_back(list: &mut Vec<Value>, rest: &mut Vec<Value>)
    requires { vec_len list.old + vec_len rest.old ≤ vec_capacity list.old }
    ensures { list.new.items ≡ list.old.items ++ rest.old.items }
{
    match list.append(rest) {
        Ok(()) => {}
        Err(_) => unreachable!(),
    }
}

// Removes the elements from `from` up to `to`, and returns them.
fn take_range(list: &mut Vec<Value>, from: usize, to: usize) -> Result<Vec<Value>>
    requires order { from ≤ to }
    requires within { to ≤ vec_len list.old }
    ensures left { OnOk result (list.new.items ≡ remove_range list.old.items from to) }
    ensures taken { IfOk result (λ v. v.items ≡ slice_range list.old.items from to) }
    ensures kept { OnErr result (list.new.items ≡ list.old.items) }
    ensures only { OnlyNoMemory result }
{
    let mut rest = list.split_off(to)?;
    match list.split_off(from) {
        Ok(taken) => {
            put_back(list, &mut rest);
            Ok(taken)
        }
        Err(error) => {
            put_back(list, &mut rest);
            Err(error.into())
        }
    }
}

/// The calls of an array that a `Vec` has. If the array is a place of a document (a part of a
/// shared JSON text), the first write copies one level: each element becomes a value of its own, or
/// a place of the same document. A call that changes the array takes memory from `alloc`.
///
/// ```
/// use json_containers::ArrayCalls;
/// use json_value::{Array, Value};
/// let mut array = Array::new();
/// array.push(alloc, Value::new_u64(7))?;
/// array.push(alloc, Value::new_bool(true))?;
/// array.retain(alloc, |item: &Value| item.view().as_bool().is_none())?;
/// assert_eq!(rt; array.len(), 1);
/// assert_eq!(rt; array.into_value().to_string(alloc)?.as_str(), "[7]");
/// ```
pub trait ArrayCalls {
    /// The array.
    ghost held: { Self → Container Value };

    /// Returns the number of elements.
    fn len(&self) -> usize
        ensures { result ≡ length (list_in (held self.now)) };

    /// Returns whether the array has no elements.
    fn is_empty(&self) -> bool
        ensures { IsTrue result ↔ (list_in (held self.now) ≡ []) };

    /// Returns how many elements the array can have before it needs more memory.
    fn capacity(&self) -> usize
        ensures { result ≡ length (list_in (held self.now)) + spare_in (held self.now) };

    /// Makes room for `additional` more elements or more. Fails with `NoMemory` if memory runs out.
    fn reserve(&mut self, alloc: Global, additional: usize) -> Result<()>
        ensures room { OnOk result (additional ≤ spare_in (held self.new)) }
        ensures same { ArrayStays (held self.old) (held self.new) }
        ensures free { additional ≤ spare_in (held self.old)
            → IsOk result × (held self.new ≡ held self.old) }
        ensures only { OnlyNoMemory result };

    /// Inserts an element before the one at `index`, which may be the length. Fails with `NoMemory`
    /// if memory runs out; the elements stay as they were.
    fn insert(&mut self, alloc: Global, index: usize, element: Value) -> Result<()>
        requires { index ≤ length (list_in (held self.old)) }
        ensures ok { OnOk result (list_in (held self.new)
            ≡ insert (list_in (held self.old)) index (tree_of element)) }
        ensures children { OnOk result (ArrayBecame (λ items. insert items index element)
            (held self.old) (held self.new)) }
        ensures kept { ArrayStaysOnErr (held self.old) (held self.new) result }
        ensures only { OnlyNoMemory result };

    /// Appends an element. Fails with `NoMemory` if memory runs out; nothing is appended then.
    fn push(&mut self, alloc: Global, val: Value) -> Result<()>
        ensures ok { OnOk result (list_in (held self.new)
            ≡ list_in (held self.old) ++ tree_of val ∷ []) }
        ensures children { OnOk result (ArrayBecame (λ items. items ++ val ∷ [])
            (held self.old) (held self.new)) }
        ensures kept { ArrayStaysOnErr (held self.old) (held self.new) result }
        ensures free { 0 < spare_in (held self.old) → IsOk result }
        ensures room { TakesRoomForOne (held self.old) (held self.new) }
        ensures only { OnlyNoMemory result };

    /// Removes and returns the element at `index`; those after it move up. Fails with `NoMemory` if
    /// memory runs out, and changes nothing then.
    fn remove(&mut self, alloc: Global, index: usize) -> Result<Value>
        requires { index < length (list_in (held self.old)) }
        ensures ok { OnOk result (list_in (held self.new)
            ≡ remove (list_in (held self.old)) index) }
        ensures children { IfOk result (λ v. ArrayChanged
            (λ items now. (now ≡ remove items index) × (slice_get items index ≡ Some v))
            (held self.old) (held self.new)) }
        ensures kept { OnErr result (held self.new ≡ held self.old) }
        ensures free { (IsPlace (held self.old) → ⊥) → IsOk result }
        ensures only { OnlyNoMemory result };

    /// Creates an array without elements, with room for at least `capacity` of them. Fails with
    /// `NoMemory` if memory runs out.
    fn with_capacity(alloc: Global, capacity: usize) -> Result<Array>
        ensures list { IfOk result (λ a. list_in a ≡ []) }
        ensures no_place { IfOk result (λ a. IsPlace a → ⊥) }
        ensures room { IfOk result (λ a. capacity ≤ spare_in a) }
        ensures free { capacity ≡ 0 → IsOk result }
        ensures only { OnlyNoMemory result };

    /// Removes and returns the element at `index`; the last one takes its place. Fails with
    /// `NoMemory` if memory runs out, and changes nothing then.
    fn swap_remove(&mut self, alloc: Global, index: usize) -> Result<Value>
        requires { index < length (list_in (held self.old)) }
        ensures ok { IfOk result (λ v. list_in (held self.new)
            ≡ swap_remove (list_in (held self.old)) index (tree_of v)) }
        ensures children { IfOk result (λ v. ArrayChanged
            (λ items now. (now ≡ swap_remove items index v) × (slice_get items index ≡ Some v))
            (held self.old) (held self.new)) }
        ensures kept { OnErr result (held self.new ≡ held self.old) }
        ensures free { (IsPlace (held self.old) → ⊥) → IsOk result }
        ensures only { OnlyNoMemory result };

    /// Keeps the first `len` elements, or all if there are fewer. Fails with `NoMemory` if memory
    /// runs out, and changes nothing then.
    fn truncate(&mut self, alloc: Global, len: usize) -> Result<()>
        ensures ok { OnOk result (list_in (held self.new) ≡ take len (list_in (held self.old))) }
        ensures children { OnOk result (ArrayBecame (take len) (held self.old) (held self.new)) }
        ensures kept { OnErr result (held self.new ≡ held self.old) }
        ensures free { (IsPlace (held self.old) → ⊥) → IsOk result }
        ensures only { OnlyNoMemory result };

    /// Removes and returns the last element; returns `None` exactly if there is none. Fails with
    /// `NoMemory` if memory runs out, and changes nothing then.
    fn pop(&mut self, alloc: Global) -> Result<Option<Value>>
        ensures ok { IfOk result (λ o. list_in (held self.old)
            ≡ list_in (held self.new) ++ option_to_list (option_map tree_of o)) }
        ensures none { IfOk result (λ o. IsNone o → list_in (held self.old) ≡ []) }
        ensures children { IfOk result (λ o. ArrayChanged
            (λ items now. items ≡ now ++ option_to_list o)
            (held self.old) (held self.new)) }
        ensures kept { OnErr result (held self.new ≡ held self.old) }
        ensures free { (IsPlace (held self.old) → ⊥) → IsOk result }
        ensures only { OnlyNoMemory result };

    /// Removes all elements. An array that is no place of a document keeps its room.
    fn clear(&mut self)
        ensures empty { list_in (held self.new) ≡ [] }
        ensures no_place { IsPlace (held self.new) → ⊥ }
        ensures room { KeepsRoom (length (list_in (held self.old)))
            (held self.old) (held self.new) };

    /// Removes the elements from `at` on and returns them as an array. Fails with `NoMemory` if
    /// memory runs out; the elements stay as they were.
    fn split_off(&mut self, alloc: Global, at: usize) -> Result<Array>
        requires { at ≤ length (list_in (held self.old)) }
        ensures ok { OnOk result (list_in (held self.new) ≡ take at (list_in (held self.old))) }
        ensures rest { IfOk result (λ a. list_in a ≡ drop at (list_in (held self.old))) }
        ensures no_place { IfOk result (λ a. IsPlace a → ⊥) }
        ensures children { IfOk result (λ a. ArrayChanged
            (λ items now. (now ≡ take at items) × (own_elements a ≡ drop at items))
            (held self.old) (held self.new)) }
        ensures kept { ArrayStaysOnErr (held self.old) (held self.new) result }
        ensures only { OnlyNoMemory result };

    /// Removes the elements from `from` up to (not including) `to` and returns them. Fails with
    /// `NoMemory` if memory runs out; the elements stay as they were.
    fn drain(&mut self, alloc: Global, from: usize, to: usize) -> Result<Array>
        requires order { from ≤ to }
        requires within { to ≤ length (list_in (held self.old)) }
        ensures ok { OnOk result (list_in (held self.new)
            ≡ remove_range (list_in (held self.old)) from to) }
        ensures taken { IfOk result (λ a. list_in a
            ≡ slice_range (list_in (held self.old)) from to) }
        ensures no_place { IfOk result (λ a. IsPlace a → ⊥) }
        ensures children { IfOk result (λ a. ArrayChanged (λ items now.
            (now ≡ remove_range items from to) × (own_elements a ≡ slice_range items from to))
            (held self.old) (held self.new)) }
        ensures kept { ArrayStaysOnErr (held self.old) (held self.new) result }
        ensures only { OnlyNoMemory result };

    /// Moves the elements of `other` to the end of this array. Fails with `NoMemory` if memory runs
    /// out; the elements of both stay as they were.
    fn append(&mut self, alloc: Global, other: &mut Array) -> Result<()>
        ensures ok { OnOk result (list_in (held self.new)
            ≡ list_in (held self.old) ++ list_in other.old) }
        ensures children { OnOk result (ArrayChanged (λ items now.
            (more : List Value) × FirstElements other.old more × (now ≡ items ++ more))
            (held self.old) (held self.new)) }
        ensures emptied { OnOk result (list_in other.new ≡ []) }
        ensures no_place { OnOk result (IsPlace other.new → ⊥) }
        ensures kept { OnErr result (ArrayStays (held self.old) (held self.new)
            × ArrayStays other.old other.new) }
        ensures only { OnlyNoMemory result };

    /// Appends copies of `items`, or fails with `NoMemory` and appends nothing.
    fn extend(&mut self, alloc: Global, items: &[Value]) -> Result<()>
        ensures ok { OnOk result (list_in (held self.new)
            ≡ list_in (held self.old) ++ map tree_of items.now) }
        ensures children { OnOk result (ArrayChanged (AppendsCopies items.now)
            (held self.old) (held self.new)) }
        ensures kept { ArrayStaysOnErr (held self.old) (held self.new) result }
        ensures only { OnlyNoMemory result };

    /// Appends copies of the elements from `from` up to (not including) `to`. Fails with `NoMemory`
    /// if memory runs out; nothing is appended then.
    fn extend_from_within(&mut self, alloc: Global, from: usize, to: usize) -> Result<()>
        requires order { from ≤ to }
        requires within { to ≤ length (list_in (held self.old)) }
        ensures ok { OnOk result (list_in (held self.new)
            ≡ list_in (held self.old) ++ slice_range (list_in (held self.old)) from to) }
        ensures children { OnOk result (ArrayChanged
            (λ items now. AppendsCopies (slice_range items from to) items now)
            (held self.old) (held self.new)) }
        ensures kept { ArrayStaysOnErr (held self.old) (held self.new) result }
        ensures only { OnlyNoMemory result };

    /// Truncates to `new_len` elements, or appends copies of `value` up to that. Fails with
    /// `NoMemory` if memory runs out; the elements stay as they were.
    fn resize(&mut self, alloc: Global, new_len: usize, value: &Value) -> Result<()>
        ensures ok { OnOk result (list_in (held self.new)
            ≡ take new_len (list_in (held self.old))
            ++ replicate (new_len - length (list_in (held self.old))) (tree_of value.now)) }
        ensures children { OnOk result (ArrayChanged (λ items now.
            AppendsCopies (replicate (new_len - length items) value.now) (take new_len items) now)
            (held self.old) (held self.new)) }
        ensures kept { ArrayStaysOnErr (held self.old) (held self.new) result }
        ensures only { OnlyNoMemory result };

    /// Removes the elements for which `f` returns false; the others keep their order. Fails with
    /// `NoMemory` if memory runs out, and changes nothing then.
    fn retain<F: FnMut(&Value) -> bool>(&mut self, alloc: Global, f: F) -> Result<()>
        requires { F.IsAlwaysCallable f }
        ensures ok { OnOk result
            (RetainsWhereTrue (list_in (held self.old)) (list_in (held self.new))) }
        ensures children { OnOk result (ArrayChanged (IsFiltered (CalledAt F.FnMut) f)
            (held self.old) (held self.new)) }
        ensures kept { OnErr result (held self.new ≡ held self.old) }
        ensures free { (IsPlace (held self.old) → ⊥) → IsOk result }
        ensures only { OnlyNoMemory result };

    /// Removes the elements for which `f` returns false, and keeps what it writes to the others.
    /// Fails with `NoMemory` if memory runs out, and changes nothing then.
    fn retain_mut<F: FnMut(&mut Value) -> bool>(&mut self, alloc: Global, f: F) -> Result<()>
        requires { F.IsAlwaysCallable f }
        ensures children { OnOk result (ArrayChanged (RetainsInTurn (CalledAtMut F.FnMut) f)
            (held self.old) (held self.new)) }
        ensures kept { OnErr result (held self.new ≡ held self.old) }
        ensures free { (IsPlace (held self.old) → ⊥) → IsOk result }
        ensures only { OnlyNoMemory result };

    /// Truncates to `new_len` elements, or appends results of `f` up to that, in order. Fails with
    /// `NoMemory` if memory runs out; the elements stay as they were.
    fn resize_with<F: FnMut() -> Value>(
        &mut self,
        alloc: Global,
        new_len: usize,
        f: F,
    ) -> Result<()>
        requires { F.IsAlwaysCallable f }
        ensures len { OnOk result (length (list_in (held self.new)) ≡ new_len) }
        ensures children { OnOk result (ArrayChanged
            (λ items now. AppendsResults F.step (take new_len items) now f)
            (held self.old) (held self.new)) }
        ensures kept { ArrayStaysOnErr (held self.old) (held self.new) result }
        ensures only { OnlyNoMemory result };

    /// Returns an iterator over the elements. Fails with `NoMemory` if memory runs out, and drops
    /// them.
    fn into_iter(self, alloc: Global) -> Result<IntoIter>
        ensures left { IfOk result (λ it. map tree_of (values_left it) ≡ list_in (held self)) }
        ensures children { IfOk result (λ it. FirstElements (held self) (values_left it)) }
        ensures shown { IfOk result (λ it. values_shown it ≡ values_left it) }
        ensures free { (IsPlace (held self) → ⊥) → IsOk result }
        ensures only { OnlyNoMemory result };

    /// Returns all elements, to be changed, for as long as the array is borrowed. Fails with
    /// `NoMemory` if memory runs out, and changes nothing then.
    fn as_mut_slice(&mut self, alloc: Global) -> Result<&mut [Value]>
        ensures* writes_back { sem 𝓛 (LendsSoOk Self.row slice_row self.entry result
            (λ n w. ArrayBecame (λ items. written_over items w) (held self.old) (held n))
            (λ n. held n ≡ held self.old)) }
        ensures list { IfOk result (λ s. map tree_of s.now ≡ list_in (held self.old)) }
        ensures children { IfOk result (λ s. FirstElements (held self.old) s.now) }
        ensures free { (IsPlace (held self.old) → ⊥) → IsOk result }
        ensures only { OnlyNoMemory result };
}

impl ArrayCalls for Array {
    ghost held = { λ a. a };

    fn len(&self) -> usize {
        self.view().len()
    }

    fn is_empty(&self) -> bool {
        self.view().is_empty()
    }

    fn capacity(&self) -> usize {
        self.view().len() + self.spare()
    }

    fn reserve(&mut self, alloc: Global, additional: usize) -> Result<()> {
        if additional <= self.spare() {
            return Ok(());
        }
        let list = self.list_mut(alloc)?;
        list.reserve(additional)?;
        Ok(())
    }

    fn insert(&mut self, alloc: Global, index: usize, element: Value) -> Result<()> {
        let list = self.list_mut(alloc)?;
        list.insert(index, element)?;
        Ok(())
    }

    fn push(&mut self, alloc: Global, val: Value) -> Result<()> {
        let list = self.list_mut(alloc)?;
        list.push(val)?;
        Ok(())
    }

    fn remove(&mut self, alloc: Global, index: usize) -> Result<Value> {
        let list = self.list_mut(alloc)?;
        Ok(list.remove(index))
    }

    fn with_capacity(alloc: Global, capacity: usize) -> Result<Array> {
        let list = Vec::with_capacity(alloc, capacity)?;
        Ok(Array::from_list(list))
    }

    fn swap_remove(&mut self, alloc: Global, index: usize) -> Result<Value> {
        let list = self.list_mut(alloc)?;
        Ok(list.swap_remove(index))
    }

    fn truncate(&mut self, alloc: Global, len: usize) -> Result<()> {
        let list = self.list_mut(alloc)?;
        list.truncate(len);
        Ok(())
    }

    fn pop(&mut self, alloc: Global) -> Result<Option<Value>> {
        let list = self.list_mut(alloc)?;
        Ok(list.pop())
    }

    fn clear(&mut self) {
        match self.list() {
            Some(list) if list.is_empty() => {}
            Some(_) => self.owned_mut().clear(),
            None => *self = Array::new(),
        }
    }

    fn split_off(&mut self, alloc: Global, at: usize) -> Result<Array> {
        let list = self.list_mut(alloc)?;
        let rest = list.split_off(at)?;
        Ok(Array::from_list(rest))
    }

    fn drain(&mut self, alloc: Global, from: usize, to: usize) -> Result<Array> {
        let list = self.list_mut(alloc)?;
        let taken = take_range(list, from, to)?;
        Ok(Array::from_list(taken))
    }

    fn append(&mut self, alloc: Global, other: &mut Array) -> Result<()> {
        let more = other.list_mut(alloc)?;
        let list = self.list_mut(alloc)?;
        list.append(more)?;
        Ok(())
    }

    fn extend(&mut self, alloc: Global, items: &[Value]) -> Result<()> {
        let mut copies = copy_all(alloc, items)?;
        let list = self.list_mut(alloc)?;
        list.append(&mut copies)?;
        Ok(())
    }

    fn extend_from_within(&mut self, alloc: Global, from: usize, to: usize) -> Result<()> {
        let list = self.list_mut(alloc)?;
        let mut copies = copy_all(alloc, &list[from..to])?;
        list.append(&mut copies)?;
        Ok(())
    }

    fn resize(&mut self, alloc: Global, new_len: usize, value: &Value) -> Result<()> {
        let list = self.list_mut(alloc)?;
        if new_len <= list.len() {
            list.truncate(new_len);
            return Ok(());
        }
        let mut copies = copies_of(alloc, value, new_len - list.len())?;
        list.append(&mut copies)?;
        Ok(())
    }

    fn retain<F: FnMut(&Value) -> bool>(&mut self, alloc: Global, f: F) -> Result<()> {
        let list = self.list_mut(alloc)?;
        list.retain(f);
        Ok(())
    }

    fn retain_mut<F: FnMut(&mut Value) -> bool>(&mut self, alloc: Global, f: F) -> Result<()> {
        let list = self.list_mut(alloc)?;
        list.retain_mut(f);
        Ok(())
    }

    fn resize_with<F: FnMut() -> Value>(
        &mut self,
        alloc: Global,
        new_len: usize,
        f: F,
    ) -> Result<()> {
        let list = self.list_mut(alloc)?;
        list.resize_with(new_len, f)?;
        Ok(())
    }

    fn into_iter(self, alloc: Global) -> Result<IntoIter> {
        IntoIter::of(self, alloc)
    }

    fn as_mut_slice(&mut self, alloc: Global) -> Result<&mut [Value]> {
        match elements_of(self, alloc) {
            Ok(list) => Ok(slice_of(list)),
            Err(error) => Err(error),
        }
    }
}
