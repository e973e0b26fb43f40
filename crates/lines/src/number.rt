//! Numbers of seven bits a byte, the highest first; each byte but the last has 128 more.
ghost use Rattle.std.specs.Prelude.{◌≡◌, ◌<◌, ◌≤◌, nat_lt, OnOk};
ghost use Rattle.lines.specs.Rows.{row, with_number, IsBetween, IsFront};

use std::alloc::AllocError;

/// Puts the byte of a number below 128 at the end that has more bits behind these; 0 has none.
fn push_last_high(bytes: &mut Vec<u8>, number: u64) -> Result<(), AllocError>
    requires { number < 128 }
    ensures value { OnOk result (IsBetween (row bytes.old.items) →
        row bytes.new.items ≡ record (row bytes.old.items) { value = number; begun = nat_lt 0 number }) }
    ensures front { IsFront bytes.old.items bytes.new.items }
{
    if number == 0 {
        return Ok(());
    }
    bytes.push(number as u8 + 128)?;
    Ok(())
}

/// Puts the bytes of a number at the end that has more bits behind these; 0 has none.
fn push_high(bytes: &mut Vec<u8>, number: u64) -> Result<(), AllocError>
    ensures value { OnOk result (IsBetween (row bytes.old.items) →
        row bytes.new.items ≡ record (row bytes.old.items) { value = number; begun = nat_lt 0 number }) }
    ensures front { IsFront bytes.old.items bytes.new.items }
{
    if number < 128 {
        return push_last_high(bytes, number);
    }
    push_high(bytes, number / 128)?;
    bytes.push((number % 128) as u8 + 128)?;
    Ok(())
}

/// Puts a number below 128 at the end.
fn push_last(bytes: &mut Vec<u8>, number: u64) -> Result<(), AllocError>
    requires { number < 128 }
    ensures number { OnOk result (IsBetween (row bytes.old.items) →
        row bytes.new.items ≡ with_number (row bytes.old.items) number) }
    ensures front { IsFront bytes.old.items bytes.new.items }
{
    bytes.push(number as u8)?;
    Ok(())
}

/// Puts a number at the end. Where memory is refused, some of its bytes may stand there.
pub(crate) fn push_number(bytes: &mut Vec<u8>, number: u64) -> Result<(), AllocError>
    ensures number { OnOk result (IsBetween (row bytes.old.items) →
        row bytes.new.items ≡ with_number (row bytes.old.items) number) }
    ensures front { IsFront bytes.old.items bytes.new.items }
{
    if number < 128 {
        return push_last(bytes, number);
    }
    push_high(bytes, number / 128)?;
    bytes.push((number % 128) as u8)?;
    Ok(())
}
