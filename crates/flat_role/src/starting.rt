//! How a network begins a role over flat code.

use crate::states::FlatRole;
use dioc_terms::{Choreo, Memory, Role, Store, give_up};
use dpoc_process::Begins;
use flat_code::compile_role;
use std::alloc::Global;

impl Begins for FlatRole {
    fn begin(
        alloc: Global,
        role: Role,
        choreo: &Choreo,
        cast: &[Role],
        store: Store,
    ) -> Result<FlatRole, Memory> {
        match compile_role(alloc, choreo, &role, cast) {
            Ok(code) => FlatRole::new(alloc, role, code, store),
            Err(fault) => give_up((role, store), fault),
        }
    }
}
