//! Numbers and bytes.
ghost use Rattle.std.specs.Prelude.{◌<◌, ◌≤◌, ◌^◌, IfOk, IfErr};
ghost use Rattle.blob_facts.specs.Fields.{IsByteIn, IsFound, IsNumberIn, IsRefused, Spells};

/// The bytes from the first on that is refused.
#[derive(Clone, Copy)]
pub struct Stuck<'a> {
    pub rest: &'a [u8],
}

/// A value, and the bytes behind its spelling.
pub type Parsed<'a, T> = Result<(T, &'a [u8]), Stuck<'a>>;

/// A number of so many bytes, the lowest first, within these bounds.
pub fn read_number<'a>(bytes: &'a [u8], width: u8, least: u64, most: u64) -> Parsed<'a, u64>
    requires width { width ≤ 8 }
    requires some { least ≤ most }
    requires fits { most < 256 ^ width }
    ensures read { IfOk result (λ r. IsFound (IsNumberIn width least most) bytes.now r.0 r.1.now) }
    ensures refused { IfErr result (λ stuck. IsRefused (Spells (IsNumberIn width least most)) bytes.now stuck.rest.now) }
{
    if width == 0 {
        return Ok((0, bytes));
    }
    let Some((first, rest)) = bytes.split_first() else {
        return Err(Stuck { rest: bytes });
    };
    let byte = u64::from(*first);
    let low = least.saturating_sub(byte).div_ceil(256);
    if most < byte || (most - byte) / 256 < low {
        return Err(Stuck { rest: bytes });
    }
    let (above, rest) = read_number(rest, width - 1, low, (most - byte) / 256)?;
    Ok((above * 256 + byte, rest))
}

/// A byte within these bounds.
pub fn read_byte<'a>(bytes: &'a [u8], least: u8, most: u8) -> Parsed<'a, u8>
    requires { least ≤ most }
    ensures read { IfOk result (λ r. IsFound (IsByteIn least most) bytes.now r.0 r.1.now) }
    ensures refused { IfErr result (λ stuck. IsRefused (Spells (IsByteIn least most)) bytes.now stuck.rest.now) }
{
    let Some((first, rest)) = bytes.split_first() else {
        return Err(Stuck { rest: bytes });
    };
    if *first < least || most < *first {
        return Err(Stuck { rest: bytes });
    }
    Ok((*first, rest))
}
