//! Code: ops, and where the process begins.

ghost use Rattle.std.specs.Prelude.{◌≡◌, ◌<◌, true, get_or, length};
ghost use Rattle.flat_code.specs.declared.ops.Op.TheVariants as ops_of;
ghost use Rattle.flat_code.specs.Layout.{IsLaid, IsLaid-prop};
ghost use Rattle.flat_code.specs.Places.{are_placed, AreBelow, at, op_process, part_places, processes};

use crate::ops::Op;

/// A process as a list of ops, in which the parts of an op stand before it: all places of a process
/// are a range of which its own is the last, and those of the whole are the first. Contracts see it
/// as the process.
pub struct Code {
    /// The ops. Each place of a part is that of an earlier op.
    pub ops: Vec<Op>,
    /// The place of the whole process.
    pub start: usize,
    pub ghost placed: { are_placed 0 ops.items ≡ true },
    pub ghost starts: { start < length ops.items },
    pub ghost laid: { IsLaid ops.items start } by { IsLaid-prop ops.items start },
}

impl Drop for Code {
    fn drop(self) {
        let Code { ops: _, start: _ } = self;
    }
}

impl Code {
    /// The op at a place, which stands for the process there. Its parts stand before it.
    #[tactic(auto, using(crate::proofs::PlaceLemmas::stands_at))]
    pub fn op_at(&self, place: usize) -> &Op
        requires { place < length self.now.ops.items }
        ensures is { result.now ≡ get_or self.now.ops.items place ops_of.Skip }
        ensures stands { at (processes self.now.ops.items) place
            ≡ op_process (processes self.now.ops.items) result.now }
        ensures earlier { AreBelow place (part_places result.now) }
    {
        &self.ops[place]
    }
}
