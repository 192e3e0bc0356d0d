ghost use Rattle.std.specs.Prelude.{◌≡◌, ◌≤◌, ◌+◌, ◌++◌, length, codes};
ghost use Rattle.segment_shape.specs.FaultPaths.{path_of_row, path_of_slave};
ghost use Rattle.segment_shape.specs.KeyNames.{name_of};
ghost use Rattle.segment_shape.specs.Paths.{element, dotted, root};

use crate::key::Key;
use crate::row_fault::RowFault;
use crate::slave_fault::SlaveFault;
use arrayvec::ArrayString;

/// Where in a segment file a value is wrong, as `cycle_ns` or `slaves[3].rates[0].tick`; `$` is the
/// file as a whole.
pub type KeyPath = ArrayString<32>;

/// The path of the file as a whole.
pub(crate) fn root_path() -> KeyPath
    ensures { result.bytes ≡ root }
{
    let mut path = KeyPath::new();
    path.push_str("$");
    path
}

/// The path of what stands at a key of the file's object.
#[tactic(auto, using(crate::proofs::PathLemmas::name_short))]
pub(crate) fn key_path(key: Key) -> KeyPath
    ensures { result.bytes ≡ name_of key }
{
    let mut path = KeyPath::new();
    path.push_str(key.name());
    path
}

#[tactic(auto, unfolding(crate::specs::Paths::element))]
fn push_element(path: &mut KeyPath, name: Key, index: u16)
    requires { length path.old.bytes + length (element (name_of name) index) ≤ 32 }
    ensures { path.new.bytes ≡ path.old.bytes ++ element (name_of name) index }
{
    path.push_str(name.name());
    path.push_str("[");
    let mut digits = itoa::Buffer::new();
    path.push_str(digits.format(index));
    path.push_str("]");
}

#[tactic(auto, unfolding(crate::specs::Paths::dotted), using(crate::proofs::PathLemmas::name_short, crate::proofs::PathLemmas::dotted_name))]
fn push_fault(path: &mut KeyPath, fault: RowFault)
    requires { length path.old.bytes ≤ 22 }
    ensures { path.new.bytes ≡ path.old.bytes ++ dotted (path_of_row fault) }
{
    match fault {
        RowFault::Row => {}
        RowFault::At(key) => {
            path.push_str(".");
            path.push_str(key.name());
        }
    }
}

/// The path of a fault in the slave row at this place.
#[tactic(auto, using(crate::proofs::PathLemmas::element_short_u8, crate::proofs::PathLemmas::dotted_element))]
pub(crate) fn slave_path(row: u8, fault: SlaveFault) -> KeyPath
    ensures { result.bytes ≡ element (codes "slaves") row ++ dotted (path_of_slave fault) }
{
    let mut path = KeyPath::new();
    push_element(&mut path, Key::Slaves, u16::from(row));
    match fault {
        SlaveFault::Own(fault) => push_fault(&mut path, fault),
        SlaveFault::Rate(index, fault) => {
            path.push_str(".");
            push_element(&mut path, Key::Rates, u16::from(index));
            push_fault(&mut path, fault);
        }
    }
    path
}

/// The path of a fault in the loss row at this place.
#[tactic(auto, using(crate::proofs::PathLemmas::element_short_u16))]
pub(crate) fn loss_path(row: u16, fault: RowFault) -> KeyPath
    ensures { result.bytes ≡ element (codes "losses") row ++ dotted (path_of_row fault) }
{
    let mut path = KeyPath::new();
    push_element(&mut path, Key::Losses, row);
    push_fault(&mut path, fault);
    path
}
