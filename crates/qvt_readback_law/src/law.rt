ghost use Rattle.qvt_readback_law.specs.ReadsBack.{PrintedReadsBack};

use qvt_parsed::law::parsing;
use qvt_readback_depth::law::printed_is_as_deep;
use qvt_readback_tokens::law::printed_is_lexed;
use qvt_readback_trees::law::{one_text, printed_is_read};

/// Its clause is the law that the printed text of a printable tree is read as one of the same shape,
/// which has the same printed text. The one exception is that it may be too deep, which comes only
/// where a unit that is printed with a block more had itself 64 items open. It does nothing.
pub fn printed_reads_back()
    ensures { PrintedReadsBack }
{
    parsing();
    printed_is_lexed();
    printed_is_read();
    one_text();
    printed_is_as_deep();
}
