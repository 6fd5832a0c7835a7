// A row of either of two kinds, told at run time.

#[derive(Drop)]
pub enum AnyRow<P, C> {
    Plain(P),
    Compact(C),
}
