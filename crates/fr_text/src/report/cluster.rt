//! The lines of what is told of the cluster: each figure with its key, and each supplier.
ghost use Rattle.std.specs.Prelude.{[]};
ghost use Rattle.fr_text.specs.Report.{cluster_line};

use super::Row;
use crate::words::{push, push_decimal, push_word};
use fr_base::{ClusterRow, NoMemory};

impl Row for ClusterRow {
    ghost first = { λ _ row. cluster_line row };

    ghost others = { λ _ _. [] };

    #[tactic(auto, using(crate::proofs::WordsLemmas::extending), unfolding(crate::specs::Report::cluster_line, crate::specs::Styles::joined))]
    fn push(&self, _all: bool, _mark: &str, out: &mut Vec<u8>) -> Result<(), NoMemory> {
        match self {
            ClusterRow::Channels(channels) => {
                push("channels", out)?;
                push_word(channels.as_str().as_bytes(), out)
            }
            ClusterRow::Number { figure, value } => {
                push(figure.key(), out)?;
                push(" ", out)?;
                push_decimal(*value, out)
            }
            ClusterRow::Supplier(supplier) => {
                push("supplier", out)?;
                push_word(supplier.as_str().as_bytes(), out)
            }
        }
    }
}
