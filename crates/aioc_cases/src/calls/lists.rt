//! Lists in an answer.

use dioc_terms::Memory;
use text_pieces::write_bytes;

/// Appends the items as the call writes them, with these bytes between two, or `none`.
pub fn write_list<T, F>(
    items: &[T],
    between: &[u8],
    write_item: &F,
    out: &mut Vec<u8>,
) -> Result<(), Memory>
where
    F: Fn(&T, &mut Vec<u8>) -> Result<(), Memory>,
    requires { F.IsAlwaysCallable write_item.now }
{
    let [first, others @ ..] = items else {
        return write_bytes(b"none", out);
    };
    write_item(first, out)?;
    for item in others {
        write_bytes(between, out)?;
        write_item(item, out)?;
    }
    Ok(())
}
