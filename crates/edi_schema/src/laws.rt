//! Laws of schemas.
ghost use Rattle.std.specs.Prelude.{◌≡◌};
ghost use Rattle.std.specs.Ordering.{nat_cmp};
ghost use Rattle.edi_schema.specs.Roles.{role_rank};
ghost use Rattle.edi_schema.specs.declared.role.Role.{Role};
ghost use Rattle.edi_schema.specs.contracts.role.RoleOrd.TheImpl.{ghosts as roles};
ghost use Rattle.edi_schema.specs.Laws.{GoodSchemasAreSchemas, SchemasArePaired, SchemasAreOrdered, SchemasAreOne};

/// The schema of two files that break no rule keeps what each schema keeps.
pub fn good_schemas_are_schemas()
    ensures { GoodSchemasAreSchemas }
{}

/// The partner of the partner of a class is the class.
pub fn schemas_are_paired()
    ensures { SchemasArePaired }
{}

/// Classes go as their names do.
pub fn schemas_are_ordered()
    ensures { SchemasAreOrdered }
{}

/// Two files and four codes make one schema at most.
pub fn schemas_are_one()
    ensures { SchemasAreOne }
{}

/// Kinds of link go as they are declared: initial, final, left, right, plain.
pub fn kinds_go_by_rank()
    ensures { (a b : Role) → roles.cmp a b ≡ nat_cmp (role_rank a) (role_rank b) }
{}
