//! Records on their way to a depot and from it.
ghost use Rattle.std.specs.Prelude.{◌≡◌, ◌+◌, ◌++◌, ◌<◌, ◌^◌, All, IfErr, IsSome, OnOk, Some, length};
ghost use Rattle.ss_codec.specs.Record.{HasRecord, record_bytes};
ghost use Rattle.ss_elem.specs.Validity.{next_bound};
ghost use Rattle.ss_elem.specs.declared.element.Element.{Element};
ghost use Rattle.ss_outside.specs.Depot.{next_number, record_at, with_record};
ghost use Rattle.ss_vault.specs.Devices.{AppendsSome, GivesWhole, IsOfNoShort, StoresCode};

use crate::fault::VaultFault;
use ss_codec::{get_element, put_element};
use ss_elem::Element;
use ss_outside::{Depot, DepotFault};

/// Appends the elements of stream `v`, of which the first has number `n`; answers how many were, and why not all.
pub(crate) fn append_all<D: Depot>(
    depot: &mut D,
    v: u32,
    n: u64,
    elements: &[Element],
    buffer: &mut Vec<u8>,
) -> (u64, Option<VaultFault>)
    requires vertex { v < 32 }
    requires next { n ≡ next_number (D.told depot.old).contents v }
    requires fit { n + length elements.now < 2 ^ 64 }
    requires first { All (λ x. IsSome (next_bound 0 x)) elements.now }
    ensures { AppendsSome (D.told depot.old) (D.told depot.new) v n elements.now result.0 result.1 }
{
    let mut count = 0;
    for x in elements {
        match append_element(depot, v, n + count, x, buffer) {
            Ok(()) => count += 1,
            Err(fault) => return (count, Some(fault)),
        }
    }
    (count, None)
}

/// The same, of elements that lie in two slices.
pub(crate) fn append_both<D: Depot>(
    depot: &mut D,
    v: u32,
    n: u64,
    first: &[Element],
    rest: &[Element],
    buffer: &mut Vec<u8>,
) -> (u64, Option<VaultFault>)
    requires vertex { v < 32 }
    requires next { n ≡ next_number (D.told depot.old).contents v }
    requires fit { n + length (first.now ++ rest.now) < 2 ^ 64 }
    requires firsts { All (λ x. IsSome (next_bound 0 x)) (first.now ++ rest.now) }
    ensures { AppendsSome (D.told depot.old) (D.told depot.new) v n (first.now ++ rest.now) result.0 result.1 }
{
    let (count, stop) = append_all(depot, v, n, first, buffer);
    if stop.is_some() {
        return (count, stop);
    }
    let (more, end) = append_all(depot, v, n + count, rest, buffer);
    (count + more, end)
}

/// Appends the record of element `n` of stream `v`.
fn append_element<D: Depot>(
    depot: &mut D,
    v: u32,
    n: u64,
    x: &Element,
    buffer: &mut Vec<u8>,
) -> Result<(), VaultFault>
    requires vertex { v < 32 }
    requires next { n ≡ next_number (D.told depot.old).contents v }
    requires first { IsSome (next_bound 0 x.now) }
    ensures stores { StoresCode (D.told depot.old) (D.told depot.new)
        (with_record v (record_bytes v n x.now) (D.told depot.old).contents) result }
    ensures record { OnOk result (HasRecord x.now) }
{
    buffer.clear();
    match put_element(v, n, x, buffer) {
        Ok(()) => (),
        Err(_) => return Err(VaultFault::Memory),
    }
    match depot.append(v, n, buffer.as_slice()) {
        Ok(()) => Ok(()),
        Err(DepotFault::Failed) => Err(VaultFault::Store {
            count: depot.faults(),
        }),
        Err(DepotFault::Memory) => Err(VaultFault::Memory),
    }
}

/// Element `n` of stream `v`, whose record is held.
pub(crate) fn fetch_element<D: Depot>(
    depot: &mut D,
    v: u32,
    n: u64,
    buffer: &mut Vec<u8>,
) -> Result<Element, VaultFault>
    requires vertex { v < 32 }
    requires held { IsSome (record_at (D.told depot.old).contents v n) }
    ensures gives { (x : Element) → HasRecord x → record_at (D.told depot.old).contents v n ≡ Some (record_bytes v n x)
        → GivesWhole (D.told depot.old) (D.told depot.new) v n x result }
    ensures whole { IfErr result (IsOfNoShort (D.told depot.old) (D.told depot.new)) }
{
    match depot.fetch(v, n, buffer) {
        Ok(()) => (),
        Err(DepotFault::Failed) => {
            return Err(VaultFault::Store {
                count: depot.faults(),
            });
        }
        Err(DepotFault::Memory) => return Err(VaultFault::Memory),
    }
    match get_element(buffer.as_slice(), v, n) {
        Ok(x) => Ok(x),
        Err(_) => Err(VaultFault::Damaged { v, n }),
    }
}
