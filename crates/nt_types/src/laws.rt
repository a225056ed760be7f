// A law of the definitions, as the contract of a function that does nothing.
ghost use Rattle.std.specs.Prelude.{◌≡◌, ℕ, List, Some};
ghost use Rattle.pvd_type.specs.declared.shape.Scalar.{Scalar};
ghost use Rattle.nt_types.specs.Kinds.{recognised};
ghost use Rattle.nt_types.specs.Types.{scalar_tree, scalar_array_tree, enum_tree, table_tree, uri_tree};
ghost use Rattle.nt_types.specs.declared.kind.NtKind.TheVariants.{NtScalar, NtScalarArray, NtEnum, NtTable, NtUri};

/// Each type that is made here is recognised as its kind, whatever its scalar, columns or query are.
pub fn types_are_recognised()
    ensures scalar { (s : Scalar) → recognised (scalar_tree s) ≡ Some NtScalar }
    ensures scalar_array { (s : Scalar) → recognised (scalar_array_tree s) ≡ Some NtScalarArray }
    ensures choice { recognised enum_tree ≡ Some NtEnum }
    ensures table { (columns : List (List ℕ × Scalar)) → recognised (table_tree columns) ≡ Some NtTable }
    ensures uri { (query : List (List ℕ × Scalar)) → recognised (uri_tree query) ≡ Some NtUri }
{}
