// The values of a line's fields, from left to right; the first that is no value of its kind refuses the line.

ghost use Rattle.std.specs.Prelude.{[], ◌∷◌};
ghost use Rattle.line.specs.declared.kinds.Kind.TheVariants as every;
ghost use Rattle.line.specs.declared.kinds.LoadKind.TheVariants as loads;
ghost use Rattle.line.specs.Shown.{load_shown};

use crate::lines::{
    ConstantLine, ExportLine, ImportLine, LoadLine, MemberLine, ModeLine, ModuleLine, ReadsLine,
    RecordLine, StatementLine, SymbolLine, UsesLine,
};
use crate::rows::{
    ConstantRow, ExportRow, ImportRow, LoadRow, MemberRow, ModeRow, ModuleRow, ReadsRow, RecordRow,
    Row, StatementRow, SymbolRow, UsesRow,
};
use crate::written::Written;
use parts::LineFault;
use values::value;

impl Written for ModeLine<'_> {
    ghost shown = { λ l. (every.Load loads.Mode, l.strict.now ∷ l.inline.now ∷ []) };

    fn row(self) -> Result<Row, LineFault> {
        Ok(Row::Load(LoadRow::Mode(ModeRow {
            strict: value(self.strict, 1)?,
            inline: value(self.inline, 2)?,
        })))
    }
}

impl Written for ModuleLine<'_> {
    ghost shown = { λ l. (every.Load loads.Module, l.kind.now ∷ l.exports.now ∷ l.wrap.now ∷ l.wrapper.now ∷ l.included.now ∷ l.inner.now ∷ l.side_effects.now ∷ l.namespace.now ∷ []) };

    fn row(self) -> Result<Row, LineFault> {
        Ok(Row::Load(LoadRow::Module(ModuleRow {
            kind: value(self.kind, 1)?,
            exports: value(self.exports, 2)?,
            wrap: value(self.wrap, 3)?,
            wrapper: value(self.wrapper, 4)?,
            included: value(self.included, 5)?,
            inner: value(self.inner, 6)?,
            side_effects: value(self.side_effects, 7)?,
            namespace: value(self.namespace, 8)?,
        })))
    }
}

impl Written for SymbolLine<'_> {
    ghost shown = { λ l. (every.Load loads.Symbol, l.owner.now ∷ l.canonical.now ∷ l.through.now ∷ []) };

    fn row(self) -> Result<Row, LineFault> {
        Ok(Row::Load(LoadRow::Symbol(SymbolRow {
            owner: value(self.owner, 1)?,
            canonical: value(self.canonical, 2)?,
            through: value(self.through, 3)?,
        })))
    }
}

impl Written for RecordLine<'_> {
    ghost shown = { λ l. (every.Load loads.Record, l.«module».now ∷ l.kind.now ∷ l.importee.now ∷ l.star.now ∷ l.reexport_only.now ∷ []) };

    fn row(self) -> Result<Row, LineFault> {
        Ok(Row::Load(LoadRow::Record(RecordRow {
            module: value(self.module, 1)?,
            kind: value(self.kind, 2)?,
            importee: value(self.importee, 3)?,
            star: value(self.star, 4)?,
            reexport_only: value(self.reexport_only, 5)?,
        })))
    }
}

impl Written for StatementLine<'_> {
    ghost shown = { λ l. (every.Load loads.Statement, l.«module».now ∷ l.included.now ∷ []) };

    fn row(self) -> Result<Row, LineFault> {
        Ok(Row::Load(LoadRow::Statement(StatementRow {
            module: value(self.module, 1)?,
            included: value(self.included, 2)?,
        })))
    }
}

impl Written for UsesLine<'_> {
    ghost shown = { λ l. (every.Load loads.Uses, l.statement.now ∷ l.«record».now ∷ []) };

    fn row(self) -> Result<Row, LineFault> {
        Ok(Row::Load(LoadRow::Uses(UsesRow {
            statement: value(self.statement, 1)?,
            record: value(self.record, 2)?,
        })))
    }
}

impl Written for ReadsLine<'_> {
    ghost shown = { λ l. (every.Load loads.Reads, l.statement.now ∷ l.symbol.now ∷ []) };

    fn row(self) -> Result<Row, LineFault> {
        Ok(Row::Load(LoadRow::Reads(ReadsRow {
            statement: value(self.statement, 1)?,
            symbol: value(self.symbol, 2)?,
        })))
    }
}

impl Written for MemberLine<'_> {
    ghost shown = { λ l. (every.Load loads.Member, l.statement.now ∷ l.object.now ∷ l.property.now ∷ l.resolution.now ∷ []) };

    fn row(self) -> Result<Row, LineFault> {
        Ok(Row::Load(LoadRow::Member(MemberRow {
            statement: value(self.statement, 1)?,
            object: value(self.object, 2)?,
            property: value(self.property, 3)?,
            resolution: value(self.resolution, 4)?,
        })))
    }
}

impl Written for ImportLine<'_> {
    ghost shown = { λ l. (every.Load loads.Import, l.«module».now ∷ l.local.now ∷ l.imported_as.now ∷ l.«record».now ∷ l.name.now ∷ []) };

    fn row(self) -> Result<Row, LineFault> {
        Ok(Row::Load(LoadRow::Import(ImportRow {
            module: value(self.module, 1)?,
            local: value(self.local, 2)?,
            imported_as: value(self.imported_as, 3)?,
            record: value(self.record, 4)?,
            name: value(self.name, 5)?,
        })))
    }
}

impl Written for ExportLine<'_> {
    ghost shown = { λ l. (every.Load loads.Export, l.«module».now ∷ l.name.now ∷ l.class.now ∷ l.symbol.now ∷ l.«record».now ∷ l.imported.now ∷ []) };

    fn row(self) -> Result<Row, LineFault> {
        Ok(Row::Load(LoadRow::Export(ExportRow {
            module: value(self.module, 1)?,
            name: value(self.name, 2)?,
            class: value(self.class, 3)?,
            symbol: value(self.symbol, 4)?,
            record: value(self.record, 5)?,
            imported: value(self.imported, 6)?,
        })))
    }
}

impl Written for ConstantLine<'_> {
    ghost shown = { λ l. (every.Load loads.Constant, l.symbol.now ∷ l.commonjs.now ∷ l.safe.now ∷ []) };

    fn row(self) -> Result<Row, LineFault> {
        Ok(Row::Load(LoadRow::Constant(ConstantRow {
            symbol: value(self.symbol, 1)?,
            commonjs: value(self.commonjs, 2)?,
            safe: value(self.safe, 3)?,
        })))
    }
}

impl Written for LoadLine<'_> {
    ghost shown = { load_shown };

    fn row(self) -> Result<Row, LineFault> {
        match self {
            LoadLine::Mode(line) => line.row(),
            LoadLine::Module(line) => line.row(),
            LoadLine::Symbol(line) => line.row(),
            LoadLine::Record(line) => line.row(),
            LoadLine::Statement(line) => line.row(),
            LoadLine::Uses(line) => line.row(),
            LoadLine::Reads(line) => line.row(),
            LoadLine::Member(line) => line.row(),
            LoadLine::Import(line) => line.row(),
            LoadLine::Export(line) => line.row(),
            LoadLine::Constant(line) => line.row(),
        }
    }
}
