//! A run of mappings of one vector replaced in place.
ghost use Rattle.std.specs.Prelude.{◌≡◌, ◌+◌, ◌-◌, ◌≤◌, length, take, drop, ◌++◌};
ghost use Rattle.std.specs.Prelude.{vec_len, vec_capacity};
ghost use Rattle.std.specs.List.{splice};

use gv_types::Packed;

/// Appends `pieces`, for which there is room.
pub fn append(items: &mut Vec<Packed>, pieces: &[Packed])
    requires { vec_len items.old + length pieces.now ≤ vec_capacity items.old }
    ensures items { items.new.items ≡ items.old.items ++ pieces.now }
    ensures len { vec_len items.new ≡ vec_len items.old + length pieces.now }
    ensures room { vec_capacity items.new ≡ vec_capacity items.old }
{
    // Mostly it is one.
    if let [piece] = pieces {
        items.push_reserved(*piece);
        return;
    }
    for piece in pieces {
        items.push_reserved(*piece);
    }
}

/// Moves all but the last `BY` mappings up by `BY`.
fn raise<const BY: usize>(items: &mut [Packed])
    requires { BY ≤ length items.old }
    ensures len { length items.new ≡ length items.old }
    ensures behind { drop BY items.new ≡ take (length items.old - BY) items.old }
{
    let end = items.len() - BY;
    items.copy_within(..end, BY);
}

/// Moves all but the first `BY` mappings down by `BY`.
fn lower<const BY: usize>(items: &mut [Packed])
    requires { BY ≤ length items.old }
    ensures len { length items.new ≡ length items.old }
    ensures before { take (length items.old - BY) items.new ≡ drop BY items.old }
{
    items.copy_within(BY.., 0);
}

/// Moves all but the last `by` mappings up by `by`, mostly one or two. A copy by a number that stands in the code becomes a call of
/// memmove, though only where this is no part of another function; any other goes one by one.
#[inline(never)]
fn raise_by(items: &mut [Packed], by: usize)
    requires { by ≤ length items.old }
    ensures len { length items.new ≡ length items.old }
    ensures behind { drop by items.new ≡ take (length items.old - by) items.old }
{
    match by {
        1 => raise::<1>(items),
        2 => raise::<2>(items),
        _ => {
            let end = items.len() - by;
            items.copy_within(..end, by);
        }
    }
}

/// Moves all but the first `by` mappings down by `by`, as in `raise_by`.
#[inline(never)]
fn lower_by(items: &mut [Packed], by: usize)
    requires { by ≤ length items.old }
    ensures len { length items.new ≡ length items.old }
    ensures before { take (length items.old - by) items.new ≡ drop by items.old }
{
    match by {
        1 => lower::<1>(items),
        2 => lower::<2>(items),
        _ => items.copy_within(by.., 0),
    }
}

/// Puts `pieces` in before `index`.
fn put_in(items: &mut Vec<Packed>, index: usize, pieces: &[Packed])
    requires within { index ≤ vec_len items.old }
    requires room { vec_len items.old + length pieces.now ≤ vec_capacity items.old }
    ensures items { items.new.items ≡ splice items.old.items index index pieces.now }
    ensures room { vec_capacity items.new ≡ vec_capacity items.old }
{
    append(items, pieces);
    raise_by(&mut items[index..], pieces.len());
    overwrite(items, index, pieces);
}

/// Takes `count` mappings out from `index` on.
fn take_out(items: &mut Vec<Packed>, index: usize, count: usize)
    requires { index + count ≤ vec_len items.old }
    ensures items { items.new.items
        ≡ take index items.old.items ++ drop (index + count) items.old.items }
    ensures room { vec_capacity items.new ≡ vec_capacity items.old }
{
    lower_by(&mut items[index..], count);
    items.truncate(items.len() - count);
}

/// Writes `pieces` over the mappings from `index` on.
fn overwrite(items: &mut Vec<Packed>, index: usize, pieces: &[Packed])
    requires { index + length pieces.now ≤ vec_len items.old }
    ensures items { items.new.items
        ≡ splice items.old.items index (index + length pieces.now) pieces.now }
    ensures len { vec_len items.new ≡ vec_len items.old }
    ensures room { vec_capacity items.new ≡ vec_capacity items.old }
{
    // Mostly they are few, which are written with no call.
    match pieces {
        [] => {}
        [piece] => items[index] = *piece,
        [first, second] => {
            items[index] = *first;
            items[index + 1] = *second;
        }
        _ => items[index..index + pieces.len()].copy_from_slice(pieces),
    }
}

/// Replaces `count` mappings from `index` on by `pieces`.
pub fn replace_run(items: &mut Vec<Packed>, index: usize, count: usize, pieces: &[Packed])
    requires within { index + count ≤ vec_len items.old }
    requires room { vec_len items.old + length pieces.now ≤ vec_capacity items.old + count }
    ensures items { items.new.items ≡ splice items.old.items index (index + count) pieces.now }
    ensures room { vec_capacity items.new ≡ vec_capacity items.old }
{
    let common = count.min(pieces.len());
    overwrite(items, index, &pieces[..common]);
    let rest = index + common;
    if common < count {
        take_out(items, rest, count - common);
    } else if common < pieces.len() {
        put_in(items, rest, &pieces[common..]);
    }
}
