//! The folding of an order into classes.
ghost use Rattle.std.specs.Prelude.{◌≡◌, ℕ, ◌+◌, ◌*◌, ◌<◌, ◌≤◌, ◌^◌, ◌==◌, ◌++◌, All, Contains, IfOk, OnOk, length, sum_by};
ghost use Rattle.std.specs.List.{filter, range_with_len, slice_index_or};
ghost use Rattle.class_rates.specs.declared.classes.TheConstants.{MAX_CLASSES};
ghost use Rattle.class_rates.specs.Classes.{IsClassOrder, IsFolded, IsPermutation, class_behind, class_by, size_by};

use crate::classes::Classes;
use crate::fold::Fold;
use coflow_units::NoMemory;
use std::alloc::Global;

/// The classes of an order of coflows, as a switch with so many priorities can serve it.
///
/// `order` has each coflow once: the numbers from 0 on. `loads` has the load of each coflow, by number. There may be
/// from 1 to 64 classes. The order is cut into as many parts as there are classes, of equal count or of equal load, and
/// a coflow has the class of the part in which it begins. So classes do not fall along the order. By count, of n
/// coflows the one at place r, counted from 0, has the class `1 + r * classes / n`, rounded down; by load it is `1 +
/// before * classes / all`, where `before` is the load of the coflows before it and `all` that of all, and at most the
/// last class. Where no coflow has load, all have class 1. The error is want of memory.
pub fn fold_order(
    alloc: Global,
    order: &[u32],
    loads: &[u64],
    by: Fold,
    classes: u32,
) -> Result<Classes, NoMemory>
    requires permutation { IsPermutation order.now }
    requires loads { length loads.now ≡ length order.now }
    requires some { 1 ≤ classes }
    requires few { classes ≤ MAX_CLASSES }
    ensures { IfOk result (λ folded.
        IsFolded (size_by by (λ c. slice_index_or loads.now c 0)) order.now classes folded) }
{
    let numbers = numbers_of(alloc, order, loads, by, classes)?;
    let by_class = class_order_of(alloc, &numbers, classes)?;
    Ok(Classes {
        count: classes,
        numbers,
        order: by_class,
    })
}

/// The class of each coflow, by number.
fn numbers_of(
    alloc: Global,
    order: &[u32],
    loads: &[u64],
    by: Fold,
    classes: u32,
) -> Result<Vec<u32>, NoMemory>
    requires permutation { IsPermutation order.now }
    requires loads { length loads.now ≡ length order.now }
    requires some { 1 ≤ classes }
    requires few { classes ≤ MAX_CLASSES }
    ensures length { IfOk result (λ numbers. length numbers.items ≡ length order.now) }
    ensures class { IfOk result (λ numbers. (c : ℕ) → Contains order.now c → slice_index_or numbers.items c 0 ≡
        class_by (size_by by (λ c. slice_index_or loads.now c 0)) order.now classes c) }
{
    let mut numbers = vec![in alloc; 0u32; order.len()]?;
    let all = size_of_all(order, loads, by);
    let mut before: u128 = 0;
    for coflow in order {
        numbers[*coflow as usize] = class_behind(all, classes, before);
        before += size_of(loads, by, *coflow);
    }
    Ok(numbers)
}

/// The sizes of the coflows of an order, at most 2^32 of them, together.
fn size_of_all(order: &[u32], loads: &[u64], by: Fold) -> u128
    requires few { length order.now ≤ 2 ^ 32 }
    requires known { All (λ c. c < length loads.now) order.now }
    ensures { result ≡ sum_by (size_by by (λ c. slice_index_or loads.now c 0)) order.now }
{
    let mut all: u128 = 0;
    for coflow in order {
        all += size_of(loads, by, *coflow);
    }
    all
}

/// What a coflow counts for.
fn size_of(loads: &[u64], by: Fold, coflow: u32) -> u128
    requires { coflow < length loads.now }
    ensures { result ≡ size_by by (λ c. slice_index_or loads.now c 0) coflow }
{
    match by {
        Fold::Count => 1,
        Fold::Load => u128::from(loads[coflow as usize]),
    }
}

/// The class of a coflow behind others of these sizes together, of so many in all.
fn class_behind(all: u128, classes: u32, before: u128) -> u32
    requires within { before ≤ all }
    requires small { all ≤ 2 ^ 96 }
    requires few { classes ≤ MAX_CLASSES }
    ensures { result ≡ class_behind all classes before }
{
    if all == 0 {
        return 1;
    }
    let part = before * u128::from(classes) / all;
    classes.min(1 + part as u32)
}

/// The numbers of coflows, at most 2^32 of them, by their class, and those of a class ascending.
fn class_order_of(alloc: Global, numbers: &[u32], classes: u32) -> Result<Vec<u32>, NoMemory>
    requires few { length numbers.now ≤ 2 ^ 32 }
    requires few_classes { classes ≤ MAX_CLASSES }
    requires class { All (λ q. (1 ≤ q) × (q ≤ classes)) numbers.now }
    ensures { IfOk result (λ order.
        IsClassOrder (range_with_len 0 (length numbers.now)) (λ c. slice_index_or numbers.now c 0) order.items) }
{
    let mut order = Vec::with_capacity(alloc, numbers.len())?;
    for before in 0..classes {
        push_class(&mut order, numbers, before + 1)?;
    }
    Ok(order)
}

/// Appends the coflows of a class, ascending.
fn push_class(order: &mut Vec<u32>, numbers: &[u32], class: u32) -> Result<(), NoMemory>
    requires { length numbers.now ≤ 2 ^ 32 }
    ensures { OnOk result (order.new.items ≡ order.old.items ++
        filter (λ c. slice_index_or numbers.now c 0 == class) (range_with_len 0 (length numbers.now))) }
{
    for coflow in 0..numbers.len() {
        if numbers[coflow] == class {
            order.push(coflow as u32)?;
        }
    }
    Ok(())
}
