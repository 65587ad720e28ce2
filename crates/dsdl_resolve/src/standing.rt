//! Which statements stand before one.
ghost use Rattle.std.specs.Prelude.{◌≡◌, ◌<◌, ◌^◌, ◌∷◌, ◌++◌, [], true, false, List};
ghost use Rattle.dsdl_parse.specs.declared.statement.Statement.{Statement as StatementOf};
ghost use Rattle.dsdl_resolve.specs.Place.{onto_section};
ghost use Rattle.dsdl_resolve.specs.Says.{is_directive, is_field, is_entry, is_split};
ghost use Rattle.dsdl_resolve.specs.Standing.{Stands};

use dsdl_parse::Statement;

/// Which statements stand in a file so far, and in its last section.
#[derive(Clone, Copy, Debug, Drop)]
pub struct Standing {
    /// Whether `---` stands in the file.
    pub split: bool,
    /// Whether `@deprecated` stands in the file.
    pub deprecated: bool,
    /// Whether a field, a padding or a constant stands in the file.
    pub begun: bool,
    /// Whether `@union` stands in the section.
    pub union: bool,
    /// Whether `@sealed` or `@extent` stands in the section.
    pub sealing: bool,
    /// Whether `@extent` stands in the section.
    pub extent: bool,
    /// Whether a field, a padding or a constant stands in the section.
    pub entry: bool,
    /// The number of fields with a name in the section.
    pub fields: u64,
}

/// Whether a statement is the directive of a name.
pub fn is_directive(statement: &Statement, word: &str) -> bool
    ensures { result ≡ is_directive word.now statement.now }
{
    match statement {
        Statement::Directive { name, expr: _ } => name.as_str() == word,
        _ => false,
    }
}

/// Whether a statement is a field with a name.
pub fn is_field(statement: &Statement) -> bool
    ensures { result ≡ is_field statement.now }
{
    matches!(statement, Statement::Field { .. })
}

/// Whether a statement is a field, a padding or a constant.
pub fn is_entry(statement: &Statement) -> bool
    ensures { result ≡ is_entry statement.now }
{
    matches!(
        statement,
        Statement::Field { .. } | Statement::Padding { .. } | Statement::Constant { .. }
    )
}

/// Whether a statement is `---`.
pub fn is_split(statement: &Statement) -> bool
    ensures { result ≡ is_split statement.now }
{
    matches!(statement, Statement::Split)
}

impl Standing {
    /// Before the first statement of a file.
    pub fn nothing() -> Standing
        ensures { Stands result [] [] }
    {
        Standing {
            split: false,
            deprecated: false,
            begun: false,
            union: false,
            sealing: false,
            extent: false,
            entry: false,
            fields: 0,
        }
    }

    /// With one statement more.
    pub fn with(self, statement: &Statement) -> Standing
        requires { self.fields < 2 ^ 62 }
        ensures { (file section : List StatementOf) → Stands self file section →
            Stands result (file ++ statement.now ∷ []) (onto_section section statement.now) }
    {
        if is_split(statement) {
            return self.next_section();
        }
        let entry = is_entry(statement);
        let extent = is_directive(statement, "extent");
        Standing {
            split: self.split,
            deprecated: self.deprecated || is_directive(statement, "deprecated"),
            begun: self.begun || entry,
            union: self.union || is_directive(statement, "union"),
            sealing: self.sealing || is_directive(statement, "sealed") || extent,
            extent: self.extent || extent,
            entry: self.entry || entry,
            fields: self.fields + u64::from(is_field(statement)),
        }
    }

    /// Behind `---`.
    fn next_section(self) -> Standing
        ensures { result ≡ record self {
          split = true;
          union = false;
          sealing = false;
          extent = false;
          entry = false;
          fields = 0;
        } }
    {
        Standing {
            split: true,
            union: false,
            sealing: false,
            extent: false,
            entry: false,
            fields: 0,
            ..self
        }
    }
}
