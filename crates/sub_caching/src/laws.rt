//! What holds of the calls on every caching object.

ghost use Rattle.sub_caching.specs.Laws.{CallsGoLocal};

/// A call goes to the first manager of its machine whose parent serves the view's pages there, and if there is none, to the
/// view. It does no work.
pub fn calls_go_local()
    ensures { CallsGoLocal }
{}
