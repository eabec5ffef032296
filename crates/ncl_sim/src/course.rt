//! What a run goes through.
ghost use Rattle.std.specs.Prelude.{◌≡◌, ◌<◌, IfOk, length};
ghost use Rattle.ncl_shape.specs.Shape.{Shape};
ghost use Rattle.ncl_sim.specs.Course.{IsCourse};
ghost use Rattle.ncl_sim.specs.Rows.{AreRowsOf};
ghost use Rattle.ncl_base.specs.ListTables.{items_at};

use crate::rows::{Row, rows_of};
use crate::touched::touched_of;
use ncl_base::{ListTable, Memory};
use ncl_delay::Delays;
use ncl_netlist::NetId;
use ncl_shape::Pipeline;
use std::alloc::Global;
use std::marker::Model;

/// What a run goes through: a pipeline at some delays, with a row for each cell, and for each net the numbers that a change
/// of it can touch.
#[derive(Drop)]
pub(crate) struct Course<'a> {
    pipeline: &'a Pipeline<'a>,
    delays: &'a Delays,
    rows: Vec<Row>,
    touched: ListTable<u32>,
}

impl<'a> Model for Course<'a> {
    ghost use Rattle.ncl_sim.specs.Course.{CourseData, IsCourse};

    ghost Value = { CourseData };

    ghost view = { λ a. record { pipeline = a.pipeline.now; delays = a.delays.now; rows = a.rows.items; touched = a.touched } };

    ghost invariant = { λ a. IsCourse (record { pipeline = a.pipeline.now; delays = a.delays.now; rows = a.rows.items; touched = a.touched }) };
}

impl<'a> Course<'a> {
    /// The course of a pipeline at some delays. Linear in cells, nets, pins and bits.
    pub(crate) fn of(
        alloc: Global,
        pipeline: &'a Pipeline<'a>,
        delays: &'a Delays,
    ) -> Result<Course<'a>, Memory>
        ensures pipeline { IfOk result (λ course. course.pipeline ≡ pipeline.now) }
        ensures delays { IfOk result (λ course. course.delays ≡ delays.now) }
    {
        let touched = touched_of(alloc, pipeline)?;
        let rows = rows_of(alloc, pipeline, delays)?;
        Ok(Course {
            pipeline,
            delays,
            rows,
            touched,
        })
    }

    /// The pipeline.
    #[inline(always)]
    pub(crate) fn pipeline(&self) -> &'a Pipeline<'a>
        ensures { result.now ≡ self.now.pipeline }
    {
        self.pipeline
    }

    /// The delays.
    pub(crate) fn delays(&self) -> &'a Delays
        ensures { result.now ≡ self.now.delays }
    {
        self.delays
    }

    /// The rows of the cells, in the order of their numbers.
    #[inline(always)]
    pub(crate) fn rows(&self) -> &[Row]
        ensures { AreRowsOf self.now.pipeline self.now.delays result.now }
    {
        &self.rows
    }

    /// The numbers that a change of a net can touch.
    #[inline(always)]
    pub(crate) fn touched(&self, net: NetId) -> &[u32]
        requires { net.0 < length self.now.touched }
        ensures { result.now ≡ items_at self.now.touched net.0 }
    {
        self.touched.at(net.0 as usize)
    }

    /// That the rows and numbers are those of the pipeline and the delays. Costs nothing.
    #[inline(always)]
    pub(crate) fn facts(&self)
        ensures course { IsCourse self.now }
        ensures shape { Shape self.now.pipeline.netlist self.now.pipeline }
    {
        self.pipeline.facts();
    }
}
