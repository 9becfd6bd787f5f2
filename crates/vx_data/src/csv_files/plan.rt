// Which cells make a value of a type.
use crate::csv_files::header::{fault_at, named};
use crate::expected::Expected;
use crate::fault::Fault;
use std::alloc::{AllocError, Global};
use vx_dtype::{DType, FieldName, FieldNames, StructFields};
use vx_value::Field;

/// How the cells of a type make a value of it. The cells are numbered in the order of the fields.
#[cycle(plan)]
#[derive(Debug, Drop)]
pub(crate) enum Plan {
    /// The cell of that number, whose text is a value of the type.
    Cell { dtype: DType, cell: usize },
    /// A struct of some of the cells.
    Struct(StructPlan),
}

/// The cells of a struct: those from one number up to another.
#[cycle(plan)]
#[derive(Debug, Drop)]
pub(crate) struct StructPlan {
    pub(crate) fields: Vec<FieldPlan>,
    pub(crate) nullable: bool,
    pub(crate) start: usize,
    pub(crate) end: usize,
}

/// The cells of a field.
#[cycle(plan)]
#[derive(Debug, Drop)]
pub(crate) struct FieldPlan {
    pub(crate) name: FieldName,
    pub(crate) plan: Plan,
}

/// The cells of a type, and the name of each in a header: the names of the fields on the way to it, with dots between them.
#[derive(Debug, Drop)]
pub(crate) struct Cells {
    pub(crate) plan: Plan,
    pub(crate) names: FieldNames,
}

// What the cell of a type is called that is no struct.
const WHOLE: &str = "value";

impl Cells {
    /// The cells of the type. Refuses a list with its type, cells of one name, and a type without a cell.
    pub(crate) fn of(alloc: Global, dtype: &DType) -> Result<Cells, Fault> {
        let mut names = Vec::new(alloc);
        let plan = plan_of(alloc, dtype, WHOLE, true, &mut names)?;
        let names = listed(alloc, names)?;
        if names.is_empty() {
            return Err(Fault::new(alloc, Expected::SomeField));
        }
        match first_repeated(&names) {
            Some(name) => Err(fault_at(alloc, Expected::DistinctNames, name.as_str())),
            None => Ok(Cells { plan, names }),
        }
    }
}

impl Plan {
    /// The cells that make what stands at the path in a value of that type, from one number up to another: none where
    /// nothing stands there.
    pub(crate) fn cells_at(&self, dtype: &DType, path: &[Field]) -> (usize, usize) {
        let mut plan = self;
        let mut dtype = dtype;
        for part in path {
            let Field::Name(name) = part;
            match (plan, dtype) {
                (Plan::Struct(inner), DType::Struct(fields, _)) => {
                    let Some(i) = fields.names().find(name) else {
                        return (0, 0);
                    };
                    let (Some(field), Some(below)) = (inner.fields.get(i), fields.types().get(i))
                    else {
                        return (0, 0);
                    };
                    plan = &field.plan;
                    dtype = below;
                }
                _ => return (0, 0),
            }
        }
        plan.cells()
    }

    // The cells, from one number up to another.
    fn cells(&self) -> (usize, usize) {
        match self {
            Plan::Cell { cell, .. } => (*cell, cell.saturating_add(1)),
            Plan::Struct(plan) => (plan.start, plan.end),
        }
    }
}

/// The list of the names, in which one is found by its hash.
pub(crate) fn listed(alloc: Global, names: Vec<FieldName>) -> Result<FieldNames, Fault> {
    match FieldNames::new(alloc, names) {
        Ok(names) => Ok(names),
        Err(_) => Err(Fault::OutOfMemory),
    }
}

/// The first name that stands in the list before.
pub(crate) fn first_repeated(names: &FieldNames) -> Option<&FieldName> {
    for (i, name) in names.iter().enumerate() {
        if names.find(name) != Some(i) {
            return Some(name);
        }
    }
    None
}

// The cells of a type that is found under that dotted name, or is the whole one.
#[cycle(plan_of)]
fn plan_of(
    alloc: Global,
    dtype: &DType,
    name: &str,
    is_whole: bool,
    names: &mut Vec<FieldName>,
) -> Result<Plan, Fault> {
    match dtype {
        DType::List(_, _) | DType::FixedSizeList(_, _, _) => {
            Err(Fault::new(alloc, Expected::CellType(dtype.clone()?)))
        }
        DType::Struct(fields, nullability) => {
            let start = names.len();
            let prefix = if is_whole { None } else { Some(name) };
            let fields = plans_of(alloc, fields, prefix, names)?;
            Ok(Plan::Struct(StructPlan {
                fields,
                nullable: nullability.admits_null(),
                start,
                end: names.len(),
            }))
        }
        _ => {
            let cell = names.len();
            names.push(named(alloc, name)?)?;
            let dtype = dtype.clone()?;
            Ok(Plan::Cell { dtype, cell })
        }
    }
}

// The cells of the fields of a struct that is found under that dotted name.
#[cycle(plan_of)]
fn plans_of(
    alloc: Global,
    fields: &StructFields,
    prefix: Option<&str>,
    names: &mut Vec<FieldName>,
) -> Result<Vec<FieldPlan>, Fault> {
    let own = fields.names().as_slice();
    let types = fields.types();
    let mut plans = Vec::new(alloc);
    for i in 0..fields.nfields() {
        plans.push(field_plan(alloc, &own[i], &types[i], prefix, names)?)?;
    }
    Ok(plans)
}

#[cycle(plan_of)]
fn field_plan(
    alloc: Global,
    name: &FieldName,
    dtype: &DType,
    prefix: Option<&str>,
    names: &mut Vec<FieldName>,
) -> Result<FieldPlan, Fault> {
    let dotted = dotted(alloc, prefix, name)?;
    match plan_of(alloc, dtype, dotted.as_str(), false, names) {
        Ok(plan) => Ok(FieldPlan {
            name: name.clone()?,
            plan,
        }),
        Err(fault) => Err(fault.within(name)),
    }
}

// The name behind a dotted one.
fn dotted(alloc: Global, prefix: Option<&str>, name: &FieldName) -> Result<String, AllocError> {
    match prefix {
        None => String::from_str(alloc, name.as_str()),
        Some(prefix) => format!(in alloc; "{prefix}.{name}"),
    }
}
