ghost use Rattle.std.specs.Prelude.{◌≡◌};
ghost use Rattle.std.specs.Result.{result_map_both};
ghost use Rattle.vc_script.specs.Table.{before, no_more};

use crate::LineFault;

pub(crate) fn two<A: Drop, B: Drop>(
    a: Result<A, LineFault>,
    b: Result<B, LineFault>,
) -> Result<(A, B), LineFault>
    ensures { result_map_both (λ t. (t.0, (t.1, tt))) (λ e. e) result
        ≡ before a (before b no_more) }
{
    Ok((a?, b?))
}

pub(crate) fn three<A: Drop, B: Drop, C: Drop>(
    a: Result<A, LineFault>,
    b: Result<B, LineFault>,
    c: Result<C, LineFault>,
) -> Result<(A, B, C), LineFault>
    ensures { result_map_both (λ t. (t.0, (t.1, (t.2, tt)))) (λ e. e) result
        ≡ before a (before b (before c no_more)) }
{
    Ok((a?, b?, c?))
}

// The last value may be one that is missing.
pub(crate) fn four<A: Drop, B: Drop, C: Drop, D: Drop>(
    a: Result<A, LineFault>,
    b: Result<B, LineFault>,
    c: Result<C, LineFault>,
    d: Result<D, LineFault>,
) -> Result<(A, B, C, D), LineFault>
    ensures whole { result_map_both (λ t. (t.0, (t.1, (t.2, (t.3, tt))))) (λ e. e) result
        ≡ before a (before b (before c (before d no_more))) }
    ensures last { result_map_both (λ t. (t.0, (t.1, (t.2, t.3)))) (λ e. e) result
        ≡ before a (before b (before c d)) }
{
    Ok((a?, b?, c?, d?))
}
