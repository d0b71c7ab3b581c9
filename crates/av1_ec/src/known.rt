// What is known of a writer.
ghost use Rattle.std.specs.Prelude.{ℕ};
ghost use Rattle.av1_model.specs.Position.{Position};

/// What is known of a writer, whichever it is. It has no call: the clauses of the others speak by it.
pub trait Known {
    ghost use Rattle.av1_ec.specs.declared.storage.WriterCheckpoint.{WriterCheckpoint};

    /// Range, shift, fake bits, an encoder's low end, a recorder's tokens.
    ghost position: { Self → Position };

    /// How many tokens fit before more memory is needed.
    ghost spare: { Self → ℕ };

    /// How much is stored.
    ghost stored: { Self → ℕ };

    /// What was stored at the checkpoint is still there, and stands for a position together with its numbers.
    ghost IsReached: { Self → WriterCheckpoint → Type 0 };

    /// This position, with the fake bits of now.
    ghost position_at: { Self → WriterCheckpoint → Position };
}
