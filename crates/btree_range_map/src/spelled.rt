//! Spans as bytes.
ghost use Rattle.std.specs.Prelude.{◌≡◌, ◌++◌, OnOk, Some, option_map};
ghost use Rattle.btree_range_map.specs.SpanBytes.{span-takes, span_bytes, span_read};

use crate::Span;
use btree_spelled::Spelled;
use std::alloc::{AllocError, Allocator};

/// Its bytes are those of its end, then those of its value.
impl<V: Spelled> Spelled for Span<V> {
    ghost spelling = { span_bytes V.spelling };

    ghost read = { span_read V.read };

    #[tactic(auto, using(crate::specs::SpanBytes::spans))]
    fn put<A: Allocator>(&self, out: &mut Vec<u8, A>) -> Result<(), AllocError> {
        self.end.put(out)?;
        self.value.put(out)
    }

    fn take(bytes: &[u8]) -> Option<(Span<V>, &[u8])> {
        let ((end, value), rest) = <(u64, V)>::take(bytes)?;
        Some((Span { end, value }, rest))
    }

    ghost takes = { span-takes V.spelling V.read V.takes };
}
