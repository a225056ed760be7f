ghost use Rattle.std.specs.Prelude.{◌≡◌, ◌≤◌, ◌++◌, ◌∷◌, [], length, OnOk};
ghost use Rattle.std.specs.List.{flat_map};
ghost use Rattle.pva_wire.specs.declared.order.Order.{Order as order};
ghost use Rattle.pva_wire.specs.Spelling.{number_bytes};
ghost use Rattle.pva_search.specs.Fields as field;
ghost use Rattle.pva_search.specs.Fields.{canonical, canonical_field};
ghost use Rattle.pva_search.specs.Messages.{flag, tcp, zero_address};

use pva_wire::{NoMemory, Order, write_u16, write_u32};

// Each function appends the one spelling of some items. After a refusal `out` may hold a part of it.

/// A count of two bytes, and numbers.
pub(crate) fn put_instances(
    out: &mut Vec<u8>,
    order: Order,
    instances: &[u32],
) -> Result<(), NoMemory>
    requires { length instances.now ≤ 65535 }
    ensures { OnOk result (out.new.items ≡ out.old.items ++ canonical_field order (field.instances instances.now)) }
{
    write_u16(out, order, instances.len() as u16)?;
    put_each_instance(out, order, instances)
}

fn put_each_instance(out: &mut Vec<u8>, order: Order, instances: &[u32]) -> Result<(), NoMemory>
    ensures { OnOk result (out.new.items ≡ out.old.items ++ flat_map (number_bytes order 4) instances.now) }
{
    for instance in instances {
        write_u32(out, order, *instance)?;
    }
    Ok(())
}

/// A boolean.
pub(crate) fn put_flag(out: &mut Vec<u8>, set: bool) -> Result<(), NoMemory>
    ensures { (o : order) → OnOk result (out.new.items ≡ out.old.items ++ canonical_field o (field.byte (flag set))) }
{
    put_byte(out, u8::from(set))
}

/// A byte, which is the same in both orders.
pub(crate) fn put_byte(out: &mut Vec<u8>, byte: u8) -> Result<(), NoMemory>
    ensures { (o : order) → OnOk result (out.new.items ≡ out.old.items ++ canonical_field o (field.byte byte)) }
{
    out.push(byte)?;
    Ok(())
}

/// Where the server is: the sender's address, and this port for TCP.
pub(crate) fn put_server(out: &mut Vec<u8>, order: Order, port: u16) -> Result<(), NoMemory>
    ensures { OnOk result (out.new.items
        ≡ out.old.items ++ canonical order (field.bytes zero_address ∷ field.short port ∷ field.text tcp ∷ [])) }
{
    out.extend_from_slice(&[0; 16])?;
    write_u16(out, order, port)?;
    out.extend_from_slice(&[3, b't', b'c', b'p'])?;
    Ok(())
}
