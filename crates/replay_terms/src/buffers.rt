//! What buffers take.

ghost use Rattle.std.specs.Prelude.{◌≡◌, ◌≤◌, ◌<◌, ◌^◌, ◌+◌, IfSome, length};
ghost use Rattle.base.specs.Limits.{most_copied, most_views};
ghost use Rattle.semantics.specs.Variable.{copied_length, viewed};
ghost use Rattle.replay_terms.specs.Views.{content_view, count_viewed};

use crate::variable::Content;
use base::limits::{MOST_COPIED, MOST_VIEWS};

/// What buffers take of what there is for them.
#[derive(Clone, Copy)]
pub struct BuffersInUse {
    /// The lengths of all copied lists together.
    pub copied: usize,
    /// How many views there are.
    pub views: usize,
}

/// What a variable takes.
pub(crate) fn taken(content: &Content<'_>) -> BuffersInUse
    ensures copied { result.copied ≡ copied_length (content_view content.now) }
    ensures views { result.views ≡ count_viewed (content_view content.now) }
    ensures few { result.views ≤ 1 }
    ensures short { result.copied < 2 ^ 63 }
{
    match content {
        Content::Copy { numbers, .. } => BuffersInUse {
            copied: numbers.len(),
            views: 0,
        },
        Content::View { .. } => BuffersInUse {
            copied: 0,
            views: 1,
        },
        Content::Number(_) | Content::Reference { .. } => NOTHING,
        Content::Field(_) | Content::Method(_) => NOTHING,
        Content::Buffer(_) | Content::Array(_, _) => NOTHING,
    }
}

/// What takes nothing.
pub(crate) const NOTHING: BuffersInUse = BuffersInUse {
    copied: 0,
    views: 0,
};

/// What is in use with a part given up and another taken; none where that is more than there is.
pub(crate) fn exchanged(
    all: BuffersInUse,
    old: BuffersInUse,
    new: BuffersInUse,
) -> Option<BuffersInUse>
    requires copied { old.copied ≤ all.copied }
    requires views { old.views ≤ all.views }
    requires within { all.copied ≤ most_copied }
    requires few { all.views ≤ most_views }
    requires short { new.copied < 2 ^ 63 }
    requires one { new.views ≤ 1 }
    ensures copied { IfSome result (λ u. u.copied + old.copied ≡ all.copied + new.copied) }
    ensures views { IfSome result (λ u. u.views + old.views ≡ all.views + new.views) }
    ensures within { IfSome result (λ u. u.copied ≤ most_copied) }
    ensures few { IfSome result (λ u. u.views ≤ most_views) }
{
    let copied = all.copied - old.copied + new.copied;
    let views = all.views - old.views + new.views;
    if copied > MOST_COPIED || views > MOST_VIEWS as usize {
        return None;
    }
    Some(BuffersInUse { copied, views })
}
