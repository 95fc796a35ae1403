//! The lines of the nodes: the name of each.
ghost use Rattle.std.specs.Prelude.{[]};
ghost use Rattle.fr_text.specs.Report.{node_line};

use super::Row;
use crate::words::push_supplier;
use fr_base::{NoMemory, NodeRow};

impl Row for NodeRow {
    ghost first = { node_line };

    ghost others = { λ _ _. [] };

    #[tactic(auto, using(crate::proofs::WordsLemmas::extending), unfolding(crate::specs::Report::node_line, crate::specs::Styles::joined))]
    fn push(&self, all: bool, _mark: &str, out: &mut Vec<u8>) -> Result<(), NoMemory> {
        out.extend_from_slice(self.node.as_str().as_bytes())?;
        push_supplier(all, &self.supplier, out)
    }
}
