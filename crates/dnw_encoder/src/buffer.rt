//! Octets written over and behind others.
ghost use Rattle.std.specs.Prelude.{◌≡◌, ◌+◌, ◌<◌, ◌≤◌, ◌^◌, ◌++◌, length, replicate, vec_len, vec_capacity, IsOk, OnOk, OnErr};
ghost use Rattle.dnw_encoder.specs.Effects.{written_at};

use std::alloc::AllocError;

// Puts octets over others.
fn put(octets: &mut [u8], place: usize, more: &[u8])
    requires { place + length more.now ≤ length octets.old }
    ensures { octets.new ≡ written_at octets.old place more.now }
{
    octets[place..place + more.len()].copy_from_slice(more);
}

// Puts octets over others of a buffer.
fn overwrite(buffer: &mut Vec<u8>, place: usize, more: &[u8])
    requires { place + length more.now ≤ length buffer.old.items }
    ensures { buffer.new.items ≡ written_at buffer.old.items place more.now }
{
    put(buffer, place, more);
}

// Puts few octets over others, without a call.
#[inline(always)]
fn put_each(octets: &mut [u8], place: usize, more: &[u8])
    requires { place + length more.now ≤ length octets.old }
    ensures { octets.new ≡ written_at octets.old place more.now }
{
    'octets: for i in 0..more.len() {
        octets[place + i] = more[i];
    }
}

// Puts few octets over others of a buffer.
#[inline(always)]
pub(crate) fn overwrite_few(buffer: &mut Vec<u8>, place: usize, more: &[u8])
    requires { place + length more.now ≤ length buffer.old.items }
    ensures { buffer.new.items ≡ written_at buffer.old.items place more.now }
{
    put_each(buffer, place, more);
}

// Puts octets over what is there and behind it.
fn write_over(buffer: &mut Vec<u8>, place: usize, octets: &[u8]) -> Result<(), AllocError>
    requires { place ≤ length buffer.old.items }
    ensures ok { OnOk result (buffer.new.items ≡ written_at buffer.old.items place octets.now) }
    ensures err { OnErr result (buffer.new.items ≡ buffer.old.items) }
{
    if octets.len() <= buffer.len() - place {
        overwrite(buffer, place, octets);
        return Ok(());
    }
    buffer.reserve(octets.len())?;
    buffer.truncate(place);
    buffer.extend_from_slice(octets)
}

// Puts octets at a place, which is the end but where a place is filled or a buffer is written anew.
#[inline(always)]
pub(crate) fn put_at(buffer: &mut Vec<u8>, place: usize, octets: &[u8]) -> Result<(), AllocError>
    requires { place ≤ length buffer.old.items }
    ensures ok { OnOk result (buffer.new.items ≡ written_at buffer.old.items place octets.now) }
    ensures err { OnErr result (buffer.new.items ≡ buffer.old.items) }
{
    if place == buffer.len() {
        return buffer.extend_from_slice(octets);
    }
    write_over(buffer, place, octets)
}

// Puts a front and a rest at a place, over what is there and behind it.
pub(crate) fn write_at(
    buffer: &mut Vec<u8>,
    place: usize,
    front: &[u8],
    rest: &[u8],
) -> Result<(), AllocError>
    requires { place ≤ length buffer.old.items }
    ensures ok { OnOk result (buffer.new.items ≡ written_at buffer.old.items place (front.now ++ rest.now)) }
    ensures err { OnErr result (buffer.new.items ≡ buffer.old.items) }
    ensures succeeds { vec_len buffer.old + (length front.now + length rest.now) ≤ vec_capacity buffer.old → IsOk result }
{
    let size = front.len() + rest.len();
    if size <= buffer.len() - place {
        overwrite(buffer, place, front);
        overwrite(buffer, place + front.len(), rest);
        return Ok(());
    }
    buffer.reserve(size)?;
    buffer.truncate(place);
    buffer.extend_from_slice(front)?;
    buffer.extend_from_slice(rest)?;
    Ok(())
}

// Puts zeros over octets.
fn clear(octets: &mut [u8], place: usize, size: usize)
    requires { place + size ≤ length octets.old }
    ensures { octets.new ≡ written_at octets.old place (replicate size 0) }
{
    'octets: for i in 0..size {
        octets[place + i] = 0;
    }
}

// Puts zeros over octets of a buffer.
fn clear_inside(buffer: &mut Vec<u8>, place: usize, size: usize)
    requires { place + size ≤ length buffer.old.items }
    ensures { buffer.new.items ≡ written_at buffer.old.items place (replicate size 0) }
{
    clear(buffer, place, size);
}

// Puts so many zeros over what is there and behind it.
#[inline(never)]
fn clear_over(buffer: &mut Vec<u8>, place: usize, size: usize) -> Result<(), AllocError>
    requires within { place ≤ length buffer.old.items }
    requires fits { place + size < 2 ^ 64 }
    ensures ok { OnOk result (buffer.new.items ≡ written_at buffer.old.items place (replicate size 0)) }
    ensures err { OnErr result (buffer.new.items ≡ buffer.old.items) }
{
    if size <= buffer.len() - place {
        clear_inside(buffer, place, size);
        return Ok(());
    }
    buffer.reserve(size)?;
    buffer.truncate(place);
    buffer.resize(place + size, 0)
}

// Puts so many zeros at a place, which is the end but where a buffer is written anew.
#[inline(always)]
pub(crate) fn clear_at(buffer: &mut Vec<u8>, place: usize, size: usize) -> Result<(), AllocError>
    requires within { place ≤ length buffer.old.items }
    requires fits { place + size < 2 ^ 64 }
    ensures ok { OnOk result (buffer.new.items ≡ written_at buffer.old.items place (replicate size 0)) }
    ensures err { OnErr result (buffer.new.items ≡ buffer.old.items) }
{
    if place == buffer.len() {
        return buffer.resize(place + size, 0);
    }
    clear_over(buffer, place, size)
}
