//! Three to five shapes, one after the other: the first one, and then the others.

use crate::ComesBack;

impl<A: ComesBack, B: ComesBack, C: ComesBack> ComesBack for (A, B, C) {
    ghost Names = { ⟦<(A, (B, C)) as ComesBack>⟧.Names };

    ghost Value = { ⟦<(A, (B, C)) as ComesBack>⟧.Value };

    ghost part = { ⟦<(A, (B, C)) as ComesBack>⟧.part };

    ghost comes = { ⟦<(A, (B, C)) as ComesBack>⟧.comes };
}

impl<A: ComesBack, B: ComesBack, C: ComesBack, D: ComesBack> ComesBack for (A, B, C, D) {
    ghost Names = { ⟦<(A, (B, C, D)) as ComesBack>⟧.Names };

    ghost Value = { ⟦<(A, (B, C, D)) as ComesBack>⟧.Value };

    ghost part = { ⟦<(A, (B, C, D)) as ComesBack>⟧.part };

    ghost comes = { ⟦<(A, (B, C, D)) as ComesBack>⟧.comes };
}

impl<A: ComesBack, B: ComesBack, C: ComesBack, D: ComesBack, E: ComesBack> ComesBack
    for (A, B, C, D, E) {
    ghost Names = { ⟦<(A, (B, C, D, E)) as ComesBack>⟧.Names };

    ghost Value = { ⟦<(A, (B, C, D, E)) as ComesBack>⟧.Value };

    ghost part = { ⟦<(A, (B, C, D, E)) as ComesBack>⟧.part };

    ghost comes = { ⟦<(A, (B, C, D, E)) as ComesBack>⟧.comes };
}
